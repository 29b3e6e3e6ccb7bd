//! Sheets that are cut short, and sheets of the other kind.
use super::sheets::Sheet;
use super::verdicts::{judge, print_verdict};
use sheet::SheetKind;

/// A sheet cut short, or filled up, to this length.
pub(crate) fn print_length(
    rt: &HostRuntime,
    base: &Sheet,
    how: &str,
    length: usize,
) -> anyhow::Result<()> {
    let sheet = base.of_length(rt.alloc(), length)?;
    let change = format!(in rt.alloc(); "{how} {length} bytes")?;
    print_verdict(rt, &sheet, &change)
}

// Every length from nothing to the whole sheet.
fn print_cuts_of(rt: &HostRuntime, base: &Sheet) -> anyhow::Result<()> {
    for length in 0..=base.bytes.len() {
        print_length(rt, base, "first", length)?;
    }
    Ok(())
}

// A sheet of one kind, loaded as one of the other.
fn print_as(rt: &HostRuntime, kind: SheetKind, sheet: &Sheet) -> anyhow::Result<()> {
    let verdict = judge(rt.alloc(), kind, sheet.bytes.as_slice())?;
    println!(rt;
        "{} of {} bytes as the other kind: {verdict}",
        sheet.name,
        sheet.bytes.len()
    )?;
    Ok(())
}

/// Both base sheets, cut short at every byte; then each as the other kind, short and whole.
pub(crate) fn print_cuts(rt: &HostRuntime) -> anyhow::Result<()> {
    let device = Sheet::base(rt.alloc(), SheetKind::Device)?;
    let property = Sheet::base(rt.alloc(), SheetKind::Property)?;
    print_cuts_of(rt, &device)?;
    print_cuts_of(rt, &property)?;
    print_as(rt, SheetKind::Property, &device.of_length(rt.alloc(), 15)?)?;
    print_as(rt, SheetKind::Property, &device)?;
    print_as(rt, SheetKind::Device, &property.of_length(rt.alloc(), 15)?)?;
    print_as(rt, SheetKind::Device, &property)
}
