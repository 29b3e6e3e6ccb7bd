//! What a property tells.
ghost use Rattle.std.specs.Prelude.{◌≡◌, length};
ghost use Rattle.std.specs.List.{slice_get};
ghost use Rattle.property_sheet.specs.Contents.{ContentLawful};
ghost use Rattle.property.specs.Contents.{content_of};

use super::held::Property;
use property_sheet::Line;

impl Property {
    /// The line with this number; none past the last.
    pub fn line(&self, number: u8) -> Option<Line>
        ensures { result ≡ slice_get (content_of self.now).lines number }
    {
        self.lines.get(usize::from(number)).copied()
    }

    /// How many lines there are.
    pub fn line_count(&self) -> u8
        ensures { result ≡ length (content_of self.now).lines }
    {
        self.lines.len() as u8
    }

    /// How many clocks the property has.
    pub fn clocks(&self) -> u8
        ensures { result ≡ (content_of self.now).clocks }
    {
        self.clocks
    }

    /// The largest constant of its conditions.
    pub fn largest_constant(&self) -> u8
        ensures { result ≡ (content_of self.now).constant }
    {
        self.constant
    }

    /// Every property keeps the limits of a property, whatever it was loaded from.
    pub fn keeps_limits(&self)
        ensures { ContentLawful (content_of self.now) }
    {}
}
