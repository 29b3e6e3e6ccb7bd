//! From the bytes of a checker's input to a description in plain words.
#![tactic(auto)]

ghost use Rattle.std.specs.Prelude.{◌≡◌, IfOk, string_bytes};
ghost use Rattle.table.specs.Meanings.{meaning_of};
ghost use Rattle.property.specs.Contents.{content_of};
ghost use Rattle.device_sheet.specs.Sheets.{read_device};
ghost use Rattle.property_sheet.specs.Sheets.{read_property};
ghost use Rattle.description.specs.Descriptions.{guard_lengths, whole_text, described, outcome, description};

use device::{Device, Number};
use property::Property;
use sheet::{Input, SheetKind};
use std::alloc::{AllocError, Global};
use table::Table;
use wording::{Refused, device_text, property_text, refusal_text};

// How many conditions the guards of a device's edges have.
fn guard_lengths<D: Device>(device: &D, edges: u32) -> u64
    ensures { result ≡ guard_lengths (D.Device.meaning device.now) 0 edges }
{
    (0..edges)
        .filter_map(|number| device.edge(number))
        .map(|edge| u64::from(edge.conditions))
        .sum()
}

fn whole(heap: Global, device: &Table, property: &Property) -> Result<String, AllocError>
    ensures { IfOk result (λ t. string_bytes t ≡ whole_text (meaning_of device.now) (content_of property.now)) }
{
    let device_part = device_text(heap, device)?;
    let property_part = property_text(heap, property)?;
    let edges = device.number(Number::EdgeNumbers);
    let conditions = guard_lengths(device, edges);
    let lines = property.line_count();
    format!(in heap;
        "{device_part}{property_part}read: edges {edges}, conditions {conditions}, lines {lines}\n"
    )
}

// Kept: the judge has a function alike with its own error. No crate below both has the table, the
// property and the error; a new crate of one function would be no plainer.

// Loads both sheets, the device's first.
fn load<'a>(
    device: &mut Table<'a>,
    property: &mut Property,
    sheets: Input<'a>,
) -> Result<(), Refused>
    ensures { outcome result (meaning_of device.new) (content_of property.new) ≡ described (read_device sheets.entry.device.now) (read_property sheets.entry.property.now) }
{
    device.load(sheets.device).map_err(|fault| Refused {
        kind: SheetKind::Device,
        fault,
    })?;
    property.load(sheets.property).map_err(|fault| Refused {
        kind: SheetKind::Property,
        fault,
    })?;
    Ok(())
}

/// What a checker's input says: the device, the property and how much was read; or the line that
/// tells which sheet is refused, and what that refusal means.
pub fn describe(heap: Global, input: &[u8]) -> Result<String, AllocError>
    ensures { IfOk result (λ t. string_bytes t ≡ description input.now) }
{
    let mut property = Property::new(heap)?;
    let mut device = Table::new();
    match load(&mut device, &mut property, Input::split(input)) {
        Ok(()) => whole(heap, &device, &property),
        Err(refused) => refusal_text(heap, refused),
    }
}
