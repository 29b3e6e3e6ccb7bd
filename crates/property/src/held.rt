//! A property as it is held in memory, with the facts that it always keeps.
ghost use Rattle.std.specs.Prelude.{◌≡◌, ◌≤◌, true, vec_capacity};
ghost use Rattle.property_sheet.specs.Contents.{content_fits};
ghost use Rattle.property.specs.Parts.{content_with};

use property_sheet::Line;

/// A property: lines over clocks of its own, with constants up to a largest. It has room for 200
/// lines, and keeps the limits of a property.
#[derive(Drop)]
pub struct Property {
    pub(crate) lines: Vec<Line>,
    pub(crate) clocks: u8,
    pub(crate) constant: u8,
    ghost room: { 200 ≤ vec_capacity lines },
    ghost fits: { content_fits (content_with lines.items clocks constant) ≡ true },
}
