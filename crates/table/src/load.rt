//! Reading a sheet into a table.
ghost use Rattle.std.specs.Prelude.{◌≡◌, Ok, Err, MatchResult};
ghost use Rattle.device.specs.Meaning.{idle};
ghost use Rattle.sheet.specs.Order.{ToldFirst};
ghost use Rattle.device_sheet.specs.Fits.{DeviceFits};
ghost use Rattle.device_sheet.specs.Sheets.{device_limits, read_device};
ghost use Rattle.table.specs.Meanings.{meaning_of};

use super::edges::EdgeRules;
use super::held::Table;
use sheet::{Reader, SheetFault, SheetKind, check_sheet};

impl<'a> Table<'a> {
    /// An idle table: one node and nothing else.
    pub fn new() -> Table<'a>
        ensures { meaning_of result ≡ idle 8 }
    {
        Table {
            nodes: 1,
            start: 0,
            clocks: 0,
            constant: 0,
            edges: &[],
            conditions: &[],
        }
    }

    /// Replaces the table by what the sheet means, or refuses the sheet with the first limit that
    /// it breaks and leaves the table as it was.
    pub fn load(&mut self, sheet: &'a [u8]) -> Result<(), SheetFault>
        ensures read { MatchResult result (λ _. read_device sheet.now ≡ Ok (meaning_of self.new)) (λ f. (read_device sheet.now ≡ Err f) × (self.new ≡ self.old)) }
        ensures limits { MatchResult result (λ _. DeviceFits sheet.now) (λ f. ToldFirst (device_limits sheet.now) f) }
    {
        check_sheet::<EdgeRules>(sheet)?;
        let reader = Reader::new(sheet, SheetKind::Device);
        let sections = reader.sections();
        *self = Table {
            nodes: reader.byte(1),
            start: reader.byte(4),
            clocks: reader.byte(2),
            constant: reader.byte(3),
            edges: sections.records,
            conditions: sections.conditions,
        };
        Ok(())
    }
}
