//! The sheets with the most records, with single bytes of their last records changed, and what
//! they are read as.
use super::changes::{Field, print_fields};
use super::orders::print_pairs;
use super::records::{Counts, full};
use super::sheets::{Change, Sheet};
use super::verdicts::Held;
use device::{Device, Edge, Number};
use property::{Line, Property};
use sheet::SheetKind;
use table::Table;
use wording::InWords;

const MOST_IN_DEVICE: Counts = Counts(256, 1024);

const MOST_IN_PROPERTY: Counts = Counts(200, 1024);

// The count of edge 0, every field of edge 255, and of condition 1023.
const DEVICE_LAST: [Field; 13] = [
    Field(22, &[0, 9, 255]),
    Field(2056, &[0, 64, 255]),
    Field(2057, &[63, 64, 255]),
    Field(2058, &[0, 17]),
    Field(2059, &[0, 16, 255]),
    Field(2060, &[0, 4, 255]),
    Field(2061, &[247, 249, 255]),
    Field(2062, &[7, 9]),
    Field(2063, &[1]),
    Field(6156, &[0, 1, 4]),
    Field(6157, &[2, 3, 4, 255]),
    Field(6158, &[4, 5]),
    Field(6159, &[15, 16, 240, 242]),
];

// Guards of edge 255 that end with the last condition, or past it.
const DEVICE_GUARDS: [[Change; 2]; 4] = [
    [Change(2061, 255), Change(2062, 0)],
    [Change(2061, 255), Change(2062, 1)],
    [Change(2061, 255), Change(2062, 2)],
    [Change(2060, 4), Change(2061, 0)],
];

// Operands of lines 2 and 198, every field of line 199, and of condition 1023.
const PROPERTY_LAST: [Field; 12] = [
    Field(25, &[199, 200, 255]),
    Field(26, &[0, 200, 255]),
    Field(809, &[0, 2]),
    Field(810, &[199, 200]),
    Field(812, &[8, 10]),
    Field(813, &[0, 4]),
    Field(814, &[0]),
    Field(815, &[1]),
    Field(4908, &[0, 2]),
    Field(4909, &[1, 2, 255]),
    Field(4910, &[4, 5]),
    Field(4911, &[15, 16, 240, 242]),
];

// Line 199 as the first condition, and as one past the last.
const PROPERTY_NUMBERS: [[Change; 2]; 2] = [
    [Change(813, 0), Change(814, 0)],
    [Change(813, 4), Change(814, 0)],
];

fn print_numbers(rt: &HostRuntime, table: &Table) -> anyhow::Result<()> {
    let nodes = table.number(Number::Nodes);
    let start = table.number(Number::Start);
    let clocks = table.number(Number::Clocks);
    let constant = table.number(Number::LargestConstant);
    let edges = table.number(Number::EdgeNumbers);
    println!(rt;
        "full device: nodes {nodes}, start {start}, clocks {clocks}, largest constant {constant}, edges {edges}"
    )?;
    Ok(())
}

fn print_edge(rt: &HostRuntime, table: &Table, number: u32) -> anyhow::Result<()> {
    let Some(edge) = table.edge(number) else {
        println!(rt; "full device, edge {number}: none")?;
        return Ok(());
    };
    let Edge {
        source,
        target,
        action,
        resets,
        conditions,
    } = edge;
    let resets = resets.bits;
    println!(rt;
        "full device, edge {number}: from node {source} to node {target}, action {action}, resets {resets}, conditions {conditions}"
    )?;
    Ok(())
}

fn print_condition(rt: &HostRuntime, table: &Table, number: u32, place: u32) -> anyhow::Result<()> {
    match table.condition(number, place) {
        Some(condition) => println!(rt;
            "full device, edge {number}, condition {place}: {}",
            InWords(condition)
        )?,
        None => println!(rt; "full device, edge {number}, condition {place}: none")?,
    }
    Ok(())
}

// The numbers, and the last edge with its last condition; there is none after either.
fn print_table(rt: &HostRuntime, table: &Table) -> anyhow::Result<()> {
    print_numbers(rt, table)?;
    print_edge(rt, table, 0)?;
    print_edge(rt, table, 255)?;
    print_edge(rt, table, 256)?;
    print_condition(rt, table, 0, 0)?;
    print_condition(rt, table, 255, 6)?;
    print_condition(rt, table, 255, 7)?;
    print_condition(rt, table, 255, 8)?;
    print_condition(rt, table, 256, 0)
}

fn print_line(rt: &HostRuntime, property: &Property, number: u8) -> anyhow::Result<()> {
    match property.line(number) {
        Some(Line::Holds(condition)) => {
            println!(rt; "full property, line {number}: {}", InWords(condition))?
        }
        Some(_) => println!(rt; "full property, line {number}: no condition")?,
        None => println!(rt; "full property, line {number}: none")?,
    }
    Ok(())
}

fn print_property(rt: &HostRuntime, property: &Property) -> anyhow::Result<()> {
    let lines = property.line_count();
    let clocks = property.clocks();
    let constant = property.largest_constant();
    println!(rt; "full property: lines {lines}, clocks {clocks}, largest constant {constant}")?;
    print_line(rt, property, 198)?;
    print_line(rt, property, 199)?;
    print_line(rt, property, 200)?;
    print_line(rt, property, 255)
}

fn print_full(
    rt: &HostRuntime,
    sheet: &Sheet,
    fields: &[Field],
    pairs: &[[Change; 2]],
) -> anyhow::Result<()> {
    let mut held = Held::new(rt.alloc(), sheet.kind)?;
    if held.load(sheet.bytes.as_slice()).0.is_ok() {
        match &held {
            Held::Device(table) => print_table(rt, table)?,
            Held::Property(property) => print_property(rt, property)?,
        }
    }
    print_fields(rt, sheet, fields)?;
    print_pairs(rt, sheet, pairs)
}

/// The full device and the full property.
pub(crate) fn print_largest(rt: &HostRuntime) -> anyhow::Result<()> {
    let device = full(rt.alloc(), SheetKind::Device, MOST_IN_DEVICE)?;
    print_full(rt, &device, &DEVICE_LAST, &DEVICE_GUARDS)?;
    let property = full(rt.alloc(), SheetKind::Property, MOST_IN_PROPERTY)?;
    print_full(rt, &property, &PROPERTY_LAST, &PROPERTY_NUMBERS)
}
