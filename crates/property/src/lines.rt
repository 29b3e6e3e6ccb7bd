//! Line records of a property sheet: their limits and what they say.
ghost use Rattle.std.specs.Prelude.{◌≡◌, ℕ, ◌+◌, ◌/◌, ◌<◌, ◌≤◌, length, vec_capacity};
ghost use Rattle.std.specs.Simd.{first_chunks};
ghost use Rattle.sheet.specs.declared.kinds.SheetKind.TheVariants.{Property};
ghost use Rattle.sheet.specs.Limits.{checked, of_each};
ghost use Rattle.property_sheet.specs.Kinds.{number_of};
ghost use Rattle.property_sheet.specs.Records.{first_fits, second_fits, line_limits, line_at, lines_from};
ghost use Rattle.property_sheet.specs.Sheets.{lines_limits};
ghost use Rattle.property.specs.Parts.{LineReadable};

use property_sheet::{Line, LineKind};
use sheet::{Reader, RecordFault, RecordKind, SheetKind, SheetRecords, read_condition};

// The records of a section of lines: a kind, two operands and 0. A condition's number takes both
// operands, big end first.
fn line_records(section: &[u8]) -> &[[u8; 4]]
    ensures value { result.now ≡ first_chunks 4 (length section.now / 4) section.now }
    ensures count { length result.now ≡ length section.now / 4 }
{
    // Kept: edges have such a function, of another size; one for both would be a public function of
    // another crate for this one call.
    section.as_chunks().0
}

/// The numbers that lines keep to: how many lines, clocks and conditions there are, and
/// where the section begins in its sheet.
#[derive(Clone, Copy)]
pub(crate) struct LineRules {
    lines: usize,
    clocks: u8,
    conditions: usize,
    at: u16,
}

impl LineRules {
    // The first operand is nothing, a line, an action, a clock, or a condition's number.
    fn first_fits(self, kind: LineKind, first: u8, number: u16) -> bool
        ensures { result ≡ first_fits self.lines self.clocks self.conditions (number_of kind) first number }
    {
        match kind {
            LineKind::True | LineKind::False => first == 0,
            LineKind::Both | LineKind::Either | LineKind::SomeDelay | LineKind::EveryDelay => {
                usize::from(first) < self.lines
            }
            LineKind::SomeAction | LineKind::EveryAction => (1..=16).contains(&first),
            LineKind::Reset => first < self.clocks,
            LineKind::Holds => usize::from(number) < self.conditions,
        }
    }

    // The second operand is nothing, a line, or the rest of a condition's number.
    fn second_fits(self, kind: LineKind, second: u8) -> bool
        ensures { result ≡ second_fits self.lines (number_of kind) second }
    {
        match kind {
            LineKind::True | LineKind::False | LineKind::SomeDelay | LineKind::EveryDelay => {
                second == 0
            }
            LineKind::Both
            | LineKind::Either
            | LineKind::SomeAction
            | LineKind::EveryAction
            | LineKind::Reset => usize::from(second) < self.lines,
            LineKind::Holds => true,
        }
    }

    // The limits of the line whose record begins at this byte of the sheet.
    fn check_line(self, bytes: &[u8; 4], place: usize) -> Result<(), RecordFault>
        requires { place + 3 ≤ usize.MAX }
        ensures { result ≡ checked (line_limits self.lines self.clocks self.conditions bytes.now place 0) }
    {
        let [kind, first, second, reserved] = *bytes;
        let number = u16::from_be_bytes([first, second]);
        let Ok(kind) = LineKind::try_from(kind) else {
            return Err(RecordKind::Lines.fault(place));
        };
        let record = RecordKind::Lines;
        record.require(self.first_fits(kind, first, number), place + 1)?;
        record.require(self.second_fits(kind, second), place + 2)?;
        record.require(reserved == 0, place + 3)
    }

    // The limits of every line of a section, one after the other.
    fn check_each(self, section: &[u8]) -> Result<(), RecordFault>
        ensures { result ≡ checked (of_each (line_limits self.lines self.clocks self.conditions section.now self.at) 0 (length section.now / 4)) }
    {
        // Kept: edges and conditions have such a loop each, in other crates. Tried: one public
        // function that takes the check as a closure. It has to require that the closure may be
        // called, and no public function here requires anything; nor is a closure over `&[u8; N]`
        // proved yet. A trait over sizes, with a law, is longer than three loops of three lines.
        for (k, bytes) in line_records(section).iter().enumerate() {
            self.check_line(bytes, usize::from(self.at) + 4 * k)?;
        }
        Ok(())
    }
}

impl SheetRecords for LineRules {
    ghost KIND = { Property };

    const KIND: SheetKind = SheetKind::Property;

    ghost limits = { lines_limits };

    // Refusal 8, line by line.
    fn check(reader: &Reader) -> Result<(), RecordFault> {
        let sections = reader.sections();
        let rules = LineRules {
            lines: sections.records.len() / 4,
            clocks: reader.byte(2),
            conditions: sections.conditions.len() / 4,
            at: reader.records_at() as u16,
        };
        rules.check_each(sections.records)
    }
}

// The line of a record; a line that is a condition takes it from the section of conditions.
fn read_line(bytes: &[u8; 4], conditions: &[u8]) -> Line
    requires { LineReadable (length conditions.now / 4) bytes.now 0 }
    ensures { result ≡ line_at bytes.now conditions.now 0 }
{
    let [kind, first, second, _] = *bytes;
    match LineKind::try_from(kind).unwrap() {
        LineKind::True => Line::True,
        LineKind::False => Line::False,
        LineKind::Both => Line::Both(first, second),
        LineKind::Either => Line::Either(first, second),
        LineKind::SomeDelay => Line::SomeDelay(first),
        LineKind::EveryDelay => Line::EveryDelay(first),
        LineKind::SomeAction => Line::SomeAction {
            action: first,
            then: second,
        },
        LineKind::EveryAction => Line::EveryAction {
            action: first,
            then: second,
        },
        LineKind::Reset => Line::Reset {
            clock: first,
            then: second,
        },
        LineKind::Holds => {
            let number = u16::from_be_bytes([first, second]);
            Line::Holds(read_condition(conditions, usize::from(number)).unwrap())
        }
    }
}

/// Puts the lines of a section in place of those that were there, where there is room for them.
pub(crate) fn fill_lines(lines: &mut Vec<Line>, section: &[u8], conditions: &[u8])
    requires room { length section.now / 4 ≤ vec_capacity lines.old }
    requires each { (k : ℕ) → k < length section.now / 4 → LineReadable (length conditions.now / 4) section.now k }
    ensures items { lines.new.items ≡ lines_from section.now conditions.now 0 (length section.now / 4) }
    ensures room { vec_capacity lines.new ≡ vec_capacity lines.old }
{
    lines.clear();
    for bytes in line_records(section) {
        lines.push_reserved(read_line(bytes, conditions));
    }
}
