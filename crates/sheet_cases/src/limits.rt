//! Sheets as long, and with as many records, as they may be, and sheets past that.
use super::cuts::print_length;
use super::orders::print_pairs;
use super::records::{Counts, full};
use super::sheets::{Change, Sheet};
use super::verdicts::{judge, records_of};
use sheet::SheetKind;
use wording::InWords;

// The last two are 72 and 76, the lengths of the base sheets, to a count that wraps at 65536.
const LENGTHS: [usize; 5] = [65534, 65535, 65536, 65608, 65612];

// As many records as there may be, and one more.
const COUNTS: [(SheetKind, Counts); 12] = [
    (SheetKind::Device, Counts(0, 0)),
    (SheetKind::Device, Counts(0, 1024)),
    (SheetKind::Device, Counts(256, 1024)),
    (SheetKind::Device, Counts(257, 1024)),
    (SheetKind::Device, Counts(256, 1025)),
    (SheetKind::Device, Counts(257, 1025)),
    (SheetKind::Property, Counts(0, 1024)),
    (SheetKind::Property, Counts(1, 0)),
    (SheetKind::Property, Counts(200, 1024)),
    (SheetKind::Property, Counts(201, 1024)),
    (SheetKind::Property, Counts(200, 1025)),
    (SheetKind::Property, Counts(201, 1025)),
];

// A section of conditions at the end of a sheet of 65535 bytes, where there are only zeros: it
// lies within the sheet, or one byte past it, or starts at its end.
const FAR_DEVICE: [[Change; 2]; 3] = [
    [Change(12, 255), Change(13, 235)],
    [Change(12, 255), Change(13, 236)],
    [Change(12, 255), Change(13, 255)],
];

const FAR_PROPERTY: [[Change; 2]; 3] = [
    [Change(12, 255), Change(13, 247)],
    [Change(12, 255), Change(13, 248)],
    [Change(12, 255), Change(13, 255)],
];

fn print_lengths(rt: &HostRuntime, base: &Sheet) -> anyhow::Result<()> {
    for length in LENGTHS {
        print_length(rt, base, "filled up to", length)?;
    }
    Ok(())
}

fn print_counts(rt: &HostRuntime, kind: SheetKind, counts: Counts) -> anyhow::Result<()> {
    let sheet = full(rt.alloc(), kind, counts)?;
    let verdict = judge(rt.alloc(), kind, sheet.bytes.as_slice())?;
    let name = InWords(kind);
    let noun = records_of(kind);
    let Counts(records, conditions) = counts;
    println!(rt; "{name} of {records} {noun} and {conditions} conditions: {verdict}")?;
    Ok(())
}

// The longest sheet, with its conditions moved to its end.
fn print_far(
    rt: &HostRuntime,
    base: &Sheet,
    name: &'static str,
    pairs: &[[Change; 2]],
) -> anyhow::Result<()> {
    let mut longest = base.of_length(rt.alloc(), 65535)?;
    longest.name = name;
    print_pairs(rt, &longest, pairs)
}

/// Lengths of sheets, counts of records, and sections far out.
pub(crate) fn print_limits(rt: &HostRuntime) -> anyhow::Result<()> {
    let device = Sheet::base(rt.alloc(), SheetKind::Device)?;
    let property = Sheet::base(rt.alloc(), SheetKind::Property)?;
    print_lengths(rt, &device)?;
    print_lengths(rt, &property)?;
    print_far(rt, &device, "longest device", &FAR_DEVICE)?;
    print_far(rt, &property, "longest property", &FAR_PROPERTY)?;
    for (kind, counts) in COUNTS {
        print_counts(rt, kind, counts)?;
    }
    Ok(())
}
