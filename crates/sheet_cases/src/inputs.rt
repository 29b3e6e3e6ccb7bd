//! Inputs that are split into their two sheets.
use super::sheets::Sheet;
use super::verdicts::judge;
use sheet::{Input, SheetKind};
use std::alloc::{AllocError, Global};

const SHORT: [&[u8]; 13] = [
    &[],
    &[0],
    &[1],
    &[0, 0],
    &[0, 3],
    &[255, 255],
    &[0, 0, 7, 8],
    &[0, 3, 7],
    &[0, 3, 7, 8],
    &[0, 3, 7, 8, 9],
    &[0, 3, 7, 8, 9, 4],
    &[0, 3, 7, 8, 9, 4, 5],
    &[1, 0, 7, 8, 9, 4, 5],
];

// Lengths that are told for the base device sheet of 72 bytes, before the property sheet of 76.
const TOLD: [[u8; 2]; 8] = [
    [0, 0],
    [0, 71],
    [0, 72],
    [0, 73],
    [0, 148],
    [0, 149],
    [1, 72],
    [255, 255],
];

fn print_short(rt: &HostRuntime, bytes: &[u8]) -> anyhow::Result<()> {
    let Input { device, property } = Input::split(bytes);
    let device_length = device.len();
    let property_length = property.len();
    println!(rt;
        "input {bytes:?}: device of {device_length} bytes {device:?}, property of {property_length} bytes {property:?}"
    )?;
    Ok(())
}

fn both_sheets(heap: Global, told: [u8; 2]) -> Result<Vec<u8>, AllocError> {
    let mut bytes = Vec::from_slice(heap, &told)?;
    bytes.extend_from_slice(Sheet::base(heap, SheetKind::Device)?.bytes.as_slice())?;
    bytes.extend_from_slice(Sheet::base(heap, SheetKind::Property)?.bytes.as_slice())?;
    Ok(bytes)
}

fn print_told(rt: &HostRuntime, told: [u8; 2]) -> anyhow::Result<()> {
    let bytes = both_sheets(rt.alloc(), told)?;
    let input = Input::split(bytes.as_slice());
    let device = judge(rt.alloc(), SheetKind::Device, input.device)?;
    let property = judge(rt.alloc(), SheetKind::Property, input.property)?;
    let device_length = input.device.len();
    let property_length = input.property.len();
    let [high, low] = told;
    println!(rt;
        "input of both sheets, length {high} {low}: device of {device_length} bytes {device}, property of {property_length} bytes {property}"
    )?;
    Ok(())
}

/// Short inputs, and inputs of both base sheets.
pub(crate) fn print_inputs(rt: &HostRuntime) -> anyhow::Result<()> {
    for bytes in SHORT {
        print_short(rt, bytes)?;
    }
    for told in TOLD {
        print_told(rt, told)?;
    }
    Ok(())
}
