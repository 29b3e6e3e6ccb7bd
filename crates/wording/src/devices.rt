//! Devices in words.
ghost use Rattle.std.specs.Prelude.{◌≡◌, IfOk, Some, string_bytes, true};
ghost use Rattle.wording.specs.Devices.{clause_text, reset_clause, edge_line, device_text};

use super::InWords;
use super::each::write_each;
use device::{Condition, Device, Edge, Number};
use std::alloc::{AllocError, Global};
use std::fmt;

/// A condition of a guard.
#[derive(Drop)]
struct Clause(Condition);

impl fmt::Display for Clause {
    ghost output = { λ c. Some (clause_text (Some c.0)) };

    fn fmt<W: fmt::Write>(&self, f: &mut fmt::Formatter<W>) -> fmt::Result {
        write!(f, ", when {}", InWords(self.0))
    }
}

/// A clock that an edge resets.
#[derive(Drop)]
struct Reset(u8);

impl fmt::Display for Reset {
    ghost output = { λ r. Some (reset_clause true r.0) };

    fn fmt<W: fmt::Write>(&self, f: &mut fmt::Formatter<W>) -> fmt::Result {
        write!(f, ", reset clock {}", self.0)
    }
}

/// An edge of a device, with its number.
#[derive(Drop)]
struct NumberedEdge<'a, D> {
    device: &'a D,
    number: u32,
    edge: Edge,
}

impl<D: Device> fmt::Display for NumberedEdge<'_, D> {
    ghost output = { λ e. Some (edge_line (D.Device.meaning e.device.now) e.number (Some e.edge)) };

    fn fmt<W: fmt::Write>(&self, f: &mut fmt::Formatter<W>) -> fmt::Result {
        let device = self.device;
        let number = self.number;
        let Edge {
            source,
            target,
            action,
            resets,
            conditions,
        } = self.edge;
        write!(
            f,
            "edge {number}: from node {source} to node {target}, action {action}"
        )?;
        let places = 0..u32::from(conditions);
        write_each(
            f,
            places.filter_map(|place| device.condition(number, place).map(Clause)),
        )?;
        write_each(
            f,
            (0..8).filter_map(|clock| resets.contains(clock).then_some(Reset(clock))),
        )?;
        writeln!(f)
    }
}

/// A device: its numbers, then each edge that it tells.
#[derive(Drop)]
struct WholeDevice<'a, D>(&'a D);

impl<D: Device> fmt::Display for WholeDevice<'_, D> {
    ghost output = { λ d. Some (device_text (D.Device.meaning d.0.now)) };

    fn fmt<W: fmt::Write>(&self, f: &mut fmt::Formatter<W>) -> fmt::Result {
        let device = self.0;
        let nodes = device.number(Number::Nodes);
        let start = device.number(Number::Start);
        let clocks = device.number(Number::Clocks);
        let constant = device.number(Number::LargestConstant);
        let edges = device.number(Number::EdgeNumbers);
        writeln!(
            f,
            "device: nodes {nodes}, start {start}, clocks {clocks}, largest constant {constant}, edges {edges}"
        )?;
        write_each(
            f,
            (0..edges).filter_map(|number| {
                device.edge(number).map(|edge| NumberedEdge {
                    device,
                    number,
                    edge,
                })
            }),
        )
    }
}

/// A device in words: its numbers, then each edge that it tells.
pub fn device_text<D: Device>(heap: Global, device: &D) -> Result<String, AllocError>
    ensures { IfOk result (λ t. string_bytes t ≡ device_text (D.Device.meaning device.now)) }
{
    WholeDevice(device).to_string(heap)
}
