//! Sheets with two bytes changed. Of two faults the one with the lower number is told, and of two
//! with one number the one at the lower place.
use super::sheets::{Change, Sheet};
use super::verdicts::print_verdict;
use sheet::SheetKind;

const DEVICE_PAIRS: [[Change; 2]; 24] = [
    // letter and header, letter and bounds, letter and condition, letter and edge
    [Change(0, 80), Change(1, 0)],
    [Change(0, 80), Change(9, 15)],
    [Change(0, 80), Change(48, 2)],
    [Change(0, 80), Change(24, 3)],
    // header and header
    [Change(7, 1), Change(2, 5)],
    [Change(4, 3), Change(3, 16)],
    [Change(1, 0), Change(4, 255)],
    // header and bounds, header and count, header and condition, header and edge
    [Change(9, 15), Change(7, 1)],
    [Change(11, 17), Change(7, 1)],
    [Change(48, 2), Change(6, 1)],
    [Change(31, 1), Change(5, 1)],
    // bounds and bounds
    [Change(9, 15), Change(13, 0)],
    // bounds and count
    [Change(11, 17), Change(13, 40)],
    [Change(13, 53), Change(11, 20)],
    [Change(9, 15), Change(15, 21)],
    // length past any sheet
    [Change(10, 255), Change(11, 255)],
    [Change(14, 255), Change(15, 255)],
    // count and count
    [Change(15, 21), Change(11, 17)],
    // count and condition, count and edge
    [Change(48, 2), Change(15, 19)],
    [Change(24, 3), Change(15, 21)],
    // condition and condition, condition and edge
    [Change(64, 2), Change(51, 3)],
    [Change(24, 3), Change(67, 3)],
    // edge and edge
    [Change(32, 3), Change(31, 1)],
    [Change(26, 0), Change(25, 3)],
];

const PROPERTY_PAIRS: [[Change; 2]; 24] = [
    // letter and header, letter and bounds, letter and condition, letter and line
    [Change(0, 68), Change(1, 1)],
    [Change(0, 68), Change(9, 15)],
    [Change(0, 68), Change(64, 2)],
    [Change(0, 68), Change(20, 10)],
    // header and header
    [Change(7, 1), Change(2, 3)],
    [Change(4, 1), Change(3, 16)],
    [Change(6, 1), Change(1, 1)],
    // header and bounds, header and count, header and condition, header and line
    [Change(9, 15), Change(7, 1)],
    [Change(11, 0), Change(7, 1)],
    [Change(64, 2), Change(6, 1)],
    [Change(23, 1), Change(5, 1)],
    // bounds and bounds
    [Change(9, 15), Change(13, 0)],
    // bounds and count
    [Change(11, 0), Change(13, 15)],
    [Change(13, 69), Change(11, 39)],
    [Change(9, 15), Change(15, 9)],
    // length past any sheet
    [Change(10, 255), Change(11, 255)],
    [Change(14, 255), Change(15, 255)],
    // count and count
    [Change(15, 9), Change(11, 39)],
    // count and condition, count and line
    [Change(64, 2), Change(15, 9)],
    [Change(20, 10), Change(15, 9)],
    // condition and condition, condition and line
    [Change(68, 2), Change(67, 3)],
    [Change(20, 10), Change(71, 3)],
    // line and line
    [Change(32, 10), Change(31, 1)],
    [Change(30, 10), Change(29, 10)],
];

// Bytes that keep or break a limit together.
const DEVICE_TOGETHER: [[Change; 2]; 6] = [
    // the last node to start at, and the one after it
    [Change(1, 64), Change(4, 63)],
    [Change(1, 64), Change(4, 64)],
    // no clocks and no conditions, one clock and one condition
    [Change(2, 0), Change(15, 0)],
    [Change(2, 1), Change(15, 4)],
    // an edge without conditions: its first at the end of them, and past it
    [Change(29, 5), Change(30, 0)],
    [Change(29, 6), Change(30, 0)],
];

const PROPERTY_TOGETHER: [[Change; 2]; 5] = [
    // no clocks and no conditions, one clock and one condition
    [Change(2, 0), Change(15, 0)],
    [Change(2, 1), Change(15, 4)],
    // three conditions, and a line that is the last of them, or the one after it
    [Change(15, 12), Change(58, 2)],
    [Change(15, 12), Change(58, 3)],
    // eleven lines, and a line that names the last
    [Change(11, 44), Change(29, 10)],
];

/// A line for each pair.
pub(crate) fn print_pairs(
    rt: &HostRuntime,
    base: &Sheet,
    pairs: &[[Change; 2]],
) -> anyhow::Result<()> {
    for pair in pairs {
        let sheet = base.with(rt.alloc(), pair)?;
        let [Change(place, byte), Change(second, other)] = *pair;
        let change = format!(in rt.alloc(); "byte {place} is {byte} and byte {second} is {other}")?;
        print_verdict(rt, &sheet, &change)?;
    }
    Ok(())
}

/// Both base sheets with two bytes changed.
pub(crate) fn print_orders(rt: &HostRuntime) -> anyhow::Result<()> {
    let device = Sheet::base(rt.alloc(), SheetKind::Device)?;
    print_pairs(rt, &device, &DEVICE_PAIRS)?;
    print_pairs(rt, &device, &DEVICE_TOGETHER)?;
    let property = Sheet::base(rt.alloc(), SheetKind::Property)?;
    print_pairs(rt, &property, &PROPERTY_PAIRS)?;
    print_pairs(rt, &property, &PROPERTY_TOGETHER)
}
