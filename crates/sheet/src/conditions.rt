//! Condition records: the same in the sheets of devices and of properties.
ghost use Rattle.std.specs.Prelude.{◌≡◌, ◌+◌, ◌*◌, ◌/◌, ◌<◌, ◌≤◌, length};
ghost use Rattle.sheet.specs.Conditions.{condition_at, condition_limits, condition_told, constant_fits, second_fits, term_of};
ghost use Rattle.sheet.specs.Limits.{checked, of_each};

use super::faults::RecordFault;
use super::kinds::RecordKind;
use device::{Condition, Relation, Term};

// Kept: that 255 stands for no second clock is a rule of the byte format, so this is no method of
// `Term`.
fn term(first: u8, second: u8) -> Term
    ensures { result ≡ term_of first second }
{
    match second {
        255 => Term::Clock(first),
        _ => Term::Difference(first, second),
    }
}

// A condition record; each number past the relations' stands for the last.
fn condition(bytes: [u8; 4]) -> Condition
    ensures { result ≡ condition_at bytes 0 }
{
    let [first, second, relation, constant] = bytes;
    Condition {
        term: term(first, second),
        relation: Relation::try_from(relation).unwrap_or(Relation::Greater),
        constant: constant.cast_signed(),
    }
}

/// Record `index` of a section of conditions; none if the section ends before it does.
pub fn read_condition(section: &[u8], index: usize) -> Option<Condition>
    ensures { result ≡ condition_told section.now index }
{
    let (records, _) = section.as_chunks::<4>();
    let record = records.get(index)?;
    Some(condition(*record))
}

/// Where a section begins in its sheet, and the numbers that its conditions keep to.
#[derive(Clone, Copy)]
pub(crate) struct ConditionRules {
    pub(crate) clocks: u8,
    pub(crate) constant: u8,
    pub(crate) at: u16,
}

impl ConditionRules {
    // The second clock of a difference is another clock that exists.
    fn second_fits(self, first: u8, second: u8) -> bool
        ensures { result ≡ second_fits self.clocks first second }
    {
        second == 255 || (second < self.clocks && second != first)
    }

    // The constant lies between the least for its term and the largest.
    fn constant_fits(self, term: Term, constant: i8) -> bool
        ensures { result ≡ constant_fits self.constant term constant }
    {
        let largest = i16::from(self.constant);
        let least = match term {
            Term::Clock(_) => 0,
            Term::Difference(_, _) => -largest,
        };
        (least..=largest).contains(&i16::from(constant))
    }

    // The limits of one record, which stands at this byte of its sheet.
    fn check(self, bytes: [u8; 4], place: usize) -> Result<(), RecordFault>
        requires { place + 3 ≤ usize.MAX }
        ensures { result ≡ checked (condition_limits self.clocks self.constant bytes place 0) }
    {
        let [first, second, relation, constant] = bytes;
        let term = term(first, second);
        let kind = RecordKind::Conditions;
        kind.require(first < self.clocks, place)?;
        kind.require(self.second_fits(first, second), place + 1)?;
        kind.require(Relation::try_from(relation).is_ok(), place + 2)?;
        kind.require(self.constant_fits(term, constant.cast_signed()), place + 3)
    }

    /// The limits of every condition of a section, one after the other.
    pub(crate) fn check_each(self, section: &[u8]) -> Result<(), RecordFault>
        ensures { result ≡ checked (of_each (condition_limits self.clocks self.constant section.now self.at) 0 (length section.now / 4)) }
    {
        let (records, _) = section.as_chunks::<4>();
        // Kept: edges and lines have such a loop each, in other crates. Tried: one public function
        // that takes the check as a closure. It has to require that the closure may be called, and
        // no public function here requires anything; nor is a closure over `&[u8; N]` proved yet. A
        // trait over sizes, with a law, is longer than three loops of three lines.
        for (k, record) in records.iter().enumerate() {
            self.check(*record, usize::from(self.at) + 4 * k)?;
        }
        Ok(())
    }
}
