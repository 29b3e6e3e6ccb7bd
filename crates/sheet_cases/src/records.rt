//! Sheets with as many records as they may have, or others.
use super::sheets::Sheet;
use sheet::SheetKind;
use std::alloc::{AllocError, Global};

/// How many edges or lines a sheet has, and how many conditions.
#[derive(Clone, Copy)]
pub struct Counts(pub u16, pub u16);

// Edge `e` between 64 nodes. Its guard is 8 conditions; that of the next edge begins 4 later, and
// that of edge 255 ends with condition 1023.
fn edge_record(e: u16) -> [u8; 8] {
    let [high, low] = (4 * e.min(254)).to_be_bytes();
    [
        (e % 64) as u8,
        (e % 63) as u8,
        (e % 16 + 1) as u8,
        (e % 16) as u8,
        high,
        low,
        8,
        0,
    ]
}

// Line `k` of 200: the kinds in turn. A line that is a condition is condition 1023.
fn line_record(k: u16) -> [u8; 4] {
    let line = (k % 200) as u8;
    // Kept: the kinds are the bytes of the sheet's format, which the cases spell out by themselves.
    match k % 10 {
        0 => [0, 0, 0, 0],
        1 => [1, 0, 0, 0],
        2 => [2, line, 199, 0],
        3 => [3, 199, line, 0],
        4 => [4, line, 0, 0],
        5 => [5, line, 0, 0],
        6 => [6, 1, line, 0],
        7 => [7, 16, line, 0],
        8 => [8, 1, line, 0],
        _ => [9, 3, 255, 0],
    }
}

// The two clocks of condition `k`: of 4 in a device, of 2 in a property.
fn clocks(kind: SheetKind, k: u16) -> [u8; 2] {
    match kind {
        SheetKind::Device => [(k % 4) as u8, ((k % 4 + 1) % 4) as u8],
        SheetKind::Property => [(k % 2) as u8, ((k % 2 + 1) % 2) as u8],
    }
}

// Condition `k`: a clock with a constant from 0 to 15 and a difference with one from -15 to 15, in
// turn.
fn condition_record(kind: SheetKind, k: u16) -> [u8; 4] {
    let [clock, second] = clocks(kind, k);
    let relation = (k % 5) as u8;
    if k % 2 == 0 {
        [clock, 255, relation, (k % 16) as u8]
    } else {
        [clock, second, relation, ((k % 31 + 241) % 256) as u8]
    }
}

// Where the two sections stand: one after the other, right behind the directory.
fn directory(record_size: u8, counts: Counts) -> [u8; 8] {
    let Counts(records, conditions) = counts;
    let length = u32::from(record_size) * u32::from(records);
    let [_, _, a, b] = length.to_be_bytes();
    let [_, _, c, d] = (16 + length).to_be_bytes();
    let [_, _, e, f] = (4 * u32::from(conditions)).to_be_bytes();
    [0, 16, a, b, c, d, e, f]
}

/// A device sheet of 64 nodes and 4 clocks, or a property sheet of 2 clocks.
pub(crate) fn full(heap: Global, kind: SheetKind, counts: Counts) -> Result<Sheet, AllocError> {
    let (name, header, record_size) = match kind {
        SheetKind::Device => ("full device", [b'D', 64, 4, 15, 63, 2, 0, 0], 8),
        SheetKind::Property => ("full property", [b'P', 0, 2, 15, 0, 2, 0, 0], 4),
    };
    let Counts(records, conditions) = counts;
    let mut bytes = Vec::from_slice(heap, &header)?;
    bytes.extend_from_slice(&directory(record_size, counts))?;
    match kind {
        SheetKind::Device => {
            for k in 0..records {
                bytes.extend_from_slice(&edge_record(k))?;
            }
        }
        SheetKind::Property => {
            for k in 0..records {
                bytes.extend_from_slice(&line_record(k))?;
            }
        }
    }
    for k in 0..conditions {
        bytes.extend_from_slice(&condition_record(kind, k))?;
    }
    Ok(Sheet { name, kind, bytes })
}
