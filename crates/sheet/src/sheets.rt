//! The check of a whole sheet, layer by layer.
ghost use Rattle.std.specs.Prelude.{◌≡◌, ℕ, List};
ghost use Rattle.sheet.specs.Kinds.{SheetKind};
ghost use Rattle.sheet.specs.Faults.{RecordFault};
ghost use Rattle.sheet.specs.Limits.{Limit, checked};
ghost use Rattle.sheet.specs.Sheets.{sections_limits, sheet_limits};

use super::faults::{DirectoryFault, RecordFault, SheetFault};
use super::kinds::SheetKind;
use super::reader::Reader;

/// The records that one kind of sheet has in its first section, with their limits.
pub trait SheetRecords {
    ghost KIND: { SheetKind };

    /// The kind of sheet.
    const KIND: SheetKind;

    ghost limits: { List ℕ → List (Limit RecordFault) };

    /// The limits of every such record of a sheet.
    fn check(reader: &Reader) -> Result<(), RecordFault>
        ensures { result ≡ checked (limits reader.now.sheet.now) };
}

// The limits of the directory and of every record: refusals 4 to 8.
fn check_sections<R: SheetRecords>(reader: &Reader) -> Result<(), DirectoryFault>
    ensures { result ≡ checked (sections_limits reader.now.kind R.limits reader.now.sheet.now) }
{
    reader.check_directory()?;
    reader.check_conditions()?;
    R::check(reader)?;
    Ok(())
}

/// The limits of a whole sheet, in the order of checking.
pub fn check_sheet<R: SheetRecords>(sheet: &[u8]) -> Result<(), SheetFault>
    ensures { result ≡ checked (sheet_limits R.KIND R.limits sheet.now) }
{
    let reader = Reader::new(sheet, R::KIND);
    reader.check_header()?;
    check_sections::<R>(&reader)?;
    Ok(())
}
