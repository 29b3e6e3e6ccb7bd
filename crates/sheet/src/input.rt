//! The input of a program: the length of the device sheet, that sheet, and the property sheet.
ghost use Rattle.std.specs.Prelude.{◌≡◌};
ghost use Rattle.sheet.specs.Inputs.{device_part, property_part};

use super::parts::{part, rest, word_at};

/// The two sheets of an input, each what came of it, perhaps nothing.
#[derive(Clone, Copy)]
pub struct Input<'a> {
    pub device: &'a [u8],
    pub property: &'a [u8],
}

impl<'a> Input<'a> {
    /// Splits an input into its two sheets.
    pub fn split(bytes: &'a [u8]) -> Input<'a>
        ensures device { result.device.now ≡ device_part bytes.now }
        ensures property { result.property.now ≡ property_part bytes.now }
    {
        let len = usize::from(word_at(bytes, 0));
        Input {
            device: part(bytes, 2, len),
            property: rest(bytes, 2 + len),
        }
    }
}
