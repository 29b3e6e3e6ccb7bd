//! Sheets with one byte changed.
use super::device_fields::DEVICE_FIELDS;
use super::property_fields::PROPERTY_FIELDS;
use super::sheets::{Change, Sheet};
use super::verdicts::print_verdict;
use sheet::SheetKind;

/// A place of a sheet, and the bytes that are tried there, one at a time.
#[derive(Clone, Copy)]
pub struct Field(pub usize, pub &'static [u8]);

/// A line for each byte of each field.
pub(crate) fn print_fields(rt: &HostRuntime, base: &Sheet, fields: &[Field]) -> anyhow::Result<()> {
    for &Field(place, bytes) in fields {
        for &byte in bytes {
            let sheet = base.with(rt.alloc(), &[Change(place, byte)])?;
            let change = format!(in rt.alloc(); "byte {place} is {byte}")?;
            print_verdict(rt, &sheet, &change)?;
        }
    }
    Ok(())
}

/// Both base sheets, byte by byte.
pub(crate) fn print_changes(rt: &HostRuntime) -> anyhow::Result<()> {
    print_fields(
        rt,
        &Sheet::base(rt.alloc(), SheetKind::Device)?,
        &DEVICE_FIELDS,
    )?;
    print_fields(
        rt,
        &Sheet::base(rt.alloc(), SheetKind::Property)?,
        &PROPERTY_FIELDS,
    )
}
