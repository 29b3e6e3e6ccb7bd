//! Properties in words.
ghost use Rattle.std.specs.Prelude.{◌≡◌, IfOk, Some, string_bytes};
ghost use Rattle.property.specs.Contents.{content_of};
ghost use Rattle.wording.specs.Lines.{numbered_text, property_text};

use super::InWords;
use super::each::write_each;
use property::Property;
use property_sheet::Line;
use std::alloc::{AllocError, Global};
use std::fmt;

/// A line with its number.
#[derive(Drop)]
struct NumberedLine {
    number: u8,
    line: Line,
}

impl fmt::Display for NumberedLine {
    ghost output = { λ l. Some (numbered_text l.number (Some l.line)) };

    fn fmt<W: fmt::Write>(&self, f: &mut fmt::Formatter<W>) -> fmt::Result {
        writeln!(f, "line {}: {}", self.number, InWords(self.line))
    }
}

/// A property: its numbers, then its lines.
#[derive(Drop)]
struct WholeProperty<'a>(&'a Property);

impl fmt::Display for WholeProperty<'_> {
    ghost output = { λ p. Some (property_text (content_of p.0.now)) };

    fn fmt<W: fmt::Write>(&self, f: &mut fmt::Formatter<W>) -> fmt::Result {
        let property = self.0;
        let clocks = property.clocks();
        let constant = property.largest_constant();
        let lines = property.line_count();
        writeln!(
            f,
            "property: clocks {clocks}, largest constant {constant}, lines {lines}"
        )?;
        write_each(
            f,
            (0..lines).filter_map(|number| {
                property
                    .line(number)
                    .map(|line| NumberedLine { number, line })
            }),
        )
    }
}

/// A property in words: its numbers, then its lines.
pub fn property_text(heap: Global, property: &Property) -> Result<String, AllocError>
    ensures { IfOk result (λ t. string_bytes t ≡ property_text (content_of property.now)) }
{
    WholeProperty(property).to_string(heap)
}
