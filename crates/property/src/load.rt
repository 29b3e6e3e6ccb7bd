//! Making a property, and reading a sheet into it.
ghost use Rattle.std.specs.Prelude.{◌≡◌, IfOk, Ok, Err, MatchResult};
ghost use Rattle.sheet.specs.Limits.{checked};
ghost use Rattle.sheet.specs.Order.{ToldFirst};
ghost use Rattle.property_sheet.specs.Fits.{PropertyFits};
ghost use Rattle.property_sheet.specs.Contents.{always};
ghost use Rattle.property_sheet.specs.Sheets.{property_limits, sheet_content, read_property};
ghost use Rattle.property.specs.Contents.{content_of};

use super::held::Property;
use super::lines::{LineRules, fill_lines};
use property_sheet::Line;
use sheet::{Reader, SheetFault, SheetKind, check_sheet};
use std::alloc::{AllocError, Global};

/// The most lines that a property has.
const MOST_LINES: usize = 200;

impl Property {
    /// A property with the single line true. Only this takes memory: room for 200 lines.
    pub fn new(heap: Global) -> Result<Property, AllocError>
        ensures { IfOk result (λ p. content_of p ≡ always) }
    {
        let mut lines = Vec::with_capacity(heap, MOST_LINES)?;
        lines.push_reserved(Line::True);
        Ok(Property {
            lines,
            clocks: 0,
            constant: 0,
        })
    }

    // Puts in what a sheet holds that passed its check.
    fn fill(&mut self, reader: &Reader)
        requires { checked (property_limits reader.now.sheet.now) ≡ Ok tt }
        ensures { content_of self.new ≡ sheet_content reader.now.sheet.now }
    {
        let sections = reader.sections();
        fill_lines(&mut self.lines, sections.records, sections.conditions);
        self.clocks = reader.byte(2);
        self.constant = reader.byte(3);
    }

    /// Reads a property sheet into this property. A sheet that is refused changes nothing, and no
    /// memory is taken.
    pub fn load(&mut self, sheet: &[u8]) -> Result<(), SheetFault>
        ensures read { MatchResult result (λ _. read_property sheet.now ≡ Ok (content_of self.new)) (λ f. (read_property sheet.now ≡ Err f) × (self.new ≡ self.old)) }
        ensures limits { MatchResult result (λ _. PropertyFits sheet.now) (λ f. ToldFirst (property_limits sheet.now) f) }
    {
        check_sheet::<LineRules>(sheet)?;
        self.fill(&Reader::new(sheet, SheetKind::Property));
        Ok(())
    }
}
