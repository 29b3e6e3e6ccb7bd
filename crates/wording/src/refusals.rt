//! The line that tells a refused sheet.
ghost use Rattle.std.specs.Prelude.{◌≡◌, IfOk, Some, string_bytes};
ghost use Rattle.wording.specs.Refusals.{kind_text, layer_text, refused_text, cause_text, refusal_text};

use super::InWords;
use sheet::{Layer, Refusal, SheetFault, SheetKind};
use std::alloc::{AllocError, Global};
use std::fmt;

/// A refused sheet, shown as `refused device 3 at 1 in sheet`.
#[derive(Clone, Copy, PartialEq, Eq, Debug)]
pub struct Refused {
    pub kind: SheetKind,
    pub fault: SheetFault,
}

impl fmt::Display for InWords<SheetKind> {
    ghost output = { λ k. Some (kind_text k.0) };

    fn fmt<W: fmt::Write>(&self, f: &mut fmt::Formatter<W>) -> fmt::Result {
        f.write_str(match self.0 {
            SheetKind::Device => "device",
            SheetKind::Property => "property",
        })
    }
}

impl fmt::Display for InWords<Layer> {
    ghost output = { λ l. Some (layer_text l.0) };

    fn fmt<W: fmt::Write>(&self, f: &mut fmt::Formatter<W>) -> fmt::Result {
        f.write_str(match self.0 {
            Layer::Sheet => "sheet",
            Layer::Directory => "directory",
            Layer::Record => "record",
        })
    }
}

impl fmt::Display for Refused {
    ghost output = { λ r. Some (refused_text r.kind r.fault) };

    fn fmt<W: fmt::Write>(&self, f: &mut fmt::Formatter<W>) -> fmt::Result {
        let kind = InWords(self.kind);
        let number = self.fault.refusal().number();
        let place = self.fault.place();
        let layer = InWords(self.fault.layer());
        write!(f, "refused {kind} {number} at {place} in {layer}")
    }
}

/// What a refusal means.
impl fmt::Display for InWords<Refusal> {
    ghost output = { λ r. Some (cause_text r.0) };

    fn fmt<W: fmt::Write>(&self, f: &mut fmt::Formatter<W>) -> fmt::Result {
        f.write_str(match self.0 {
            Refusal::BadSize => "the sheet is shorter than 16 bytes or longer than 65535",
            Refusal::BadLetter => "the first byte is not the letter of this kind of sheet",
            Refusal::BadHeader => "a byte of the header breaks its limit",
            Refusal::BadBounds => "a section starts too early or ends past the sheet",
            Refusal::BadCount => {
                "a section is no whole number of records, or has too few or too many"
            }
            Refusal::BadCondition => "a field of a condition breaks its limit",
            Refusal::BadEdge => "a field of an edge breaks its limit",
            Refusal::BadLine => "a field of a line breaks its limit",
        })
    }
}

/// A refused sheet in words: the line that tells it, then what the refusal means.
pub fn refusal_text(heap: Global, refused: Refused) -> Result<String, AllocError>
    ensures { IfOk result (λ t. string_bytes t ≡ refusal_text refused.kind refused.fault) }
{
    let cause = InWords(refused.fault.refusal());
    format!(in heap; "{refused}\n{cause}\n")
}
