//! A reader over the bytes of one sheet.
ghost use Rattle.std.specs.Prelude.{◌≡◌, ◌+◌, ◌≤◌, [], ◌∷◌, ◌&&◌, length, take, drop, nat_le};
ghost use Rattle.sheet.specs.Kinds.{Device, Property};
ghost use Rattle.sheet.specs.Faults.{Header, Bounds, Count};
ghost use Rattle.sheet.specs.Limits.{checked, limit};
ghost use Rattle.sheet.specs.Layout.{byte_at, word_at, offset_of, section_of, counts_limits, edition_limits, header_limits, directory_limits};
ghost use Rattle.sheet.specs.Conditions.{conditions_limits};

use super::conditions::ConditionRules;
use super::faults::{DirectoryFault, RecordFault, SheetFault, check_limit};
use super::kinds::{RecordKind, SheetKind};
use super::parts::{byte_at, part, word_at};

/// A sheet that is read as one of a kind. Nothing of it is copied.
#[derive(Clone, Copy)]
pub struct Reader<'a> {
    sheet: &'a [u8],
    kind: SheetKind,
}

/// The two sections of a sheet, as parts of its own bytes.
#[derive(Clone, Copy)]
pub struct Sections<'a> {
    /// Edges of a device, lines of a property.
    pub records: &'a [u8],
    pub conditions: &'a [u8],
}

// The bytes of the directory's two pairs.
const RECORDS: u8 = 8;

const CONDITIONS: u8 = 12;

// A pair of the directory: where a section begins and how long it is.
#[derive(Clone, Copy)]
struct Pair {
    from: u16,
    len: u16,
}

impl Pair {
    // Where the section ends.
    fn end(self) -> usize
        ensures { result ≡ self.from + self.len }
    {
        usize::from(self.from) + usize::from(self.len)
    }

    // The section begins at byte `floor` or later, and ends within `bytes` bytes.
    fn lies_within(self, floor: usize, bytes: usize) -> bool
        ensures { result ≡ (nat_le floor self.from && nat_le (self.from + self.len) bytes) }
    {
        floor <= usize::from(self.from) && self.end() <= bytes
    }
}

// The fault of a pair whose section does not lie where it may.
fn bounds(pair: u8) -> DirectoryFault
    ensures { result ≡ Bounds pair }
{
    DirectoryFault::Bounds {
        place: usize::from(pair),
    }
}

// The fault of a pair whose length does not fit; the length is the pair's second word.
fn count(pair: u8) -> DirectoryFault
    ensures { result ≡ Count (pair + 2) }
{
    DirectoryFault::Count {
        place: usize::from(pair) + 2,
    }
}

// A limit of the header: a byte that fits, or the fault that tells it.
fn check_byte(place: usize, fits: bool) -> Result<(), SheetFault>
    ensures { result ≡ checked (limit fits (Header place) ∷ []) }
{
    check_limit(fits, SheetFault::Header { place })
}

impl<'a> Reader<'a> {
    /// A reader of these bytes.
    pub fn new(sheet: &'a [u8], kind: SheetKind) -> Reader<'a>
        ensures bytes { result.sheet.now ≡ sheet.now }
        ensures kind { result.kind ≡ kind }
    {
        Reader { sheet, kind }
    }

    /// The byte at a place, 0 past the end.
    pub fn byte(&self, place: usize) -> u8
        ensures { result ≡ byte_at self.now.sheet.now place }
    {
        byte_at(self.sheet, place)
    }

    // The pair of the directory that stands at this byte.
    fn pair(&self, place: u8) -> Pair
        ensures from { result.from ≡ word_at self.now.sheet.now place }
        ensures len { result.len ≡ word_at self.now.sheet.now (place + 2) }
    {
        let place = u16::from(place);
        Pair {
            from: word_at(self.sheet, place),
            len: word_at(self.sheet, place + 2),
        }
    }

    // The part of the sheet that a pair of the directory names, as far as the sheet goes.
    fn section(&self, place: u8) -> &'a [u8]
        ensures value { result.now ≡ take (word_at self.now.sheet.now (place + 2)) (drop (word_at self.now.sheet.now place) self.now.sheet.now) }
        ensures bound { length result.now ≤ 65535 }
    {
        let pair = self.pair(place);
        part(self.sheet, usize::from(pair.from), usize::from(pair.len))
    }

    /// Where the first section begins, as the directory says.
    pub fn records_at(&self) -> usize
        ensures value { result ≡ offset_of self.now.sheet.now 0 }
        ensures bound { result ≤ 65535 }
    {
        usize::from(self.pair(RECORDS).from)
    }

    /// Both sections.
    pub fn sections(&self) -> Sections<'a>
        ensures records { result.records.now ≡ section_of self.now.sheet.now 0 }
        ensures conditions { result.conditions.now ≡ section_of self.now.sheet.now 1 }
        ensures short { length result.records.now ≤ 65535 }
    {
        Sections {
            records: self.section(RECORDS),
            conditions: self.section(CONDITIONS),
        }
    }

    fn check_counts(&self) -> Result<(), SheetFault>
        ensures { result ≡ checked (counts_limits self.now.kind self.now.sheet.now) }
    {
        match self.kind {
            SheetKind::Device => self.check_device_counts(),
            SheetKind::Property => self.check_property_counts(),
        }
    }

    // Nodes, clocks, largest constant and start of a device.
    fn check_device_counts(&self) -> Result<(), SheetFault>
        ensures { result ≡ checked (counts_limits Device self.now.sheet.now) }
    {
        let nodes = self.byte(1);
        check_byte(1, (1..=64).contains(&nodes))?;
        check_byte(2, self.byte(2) <= 4)?;
        check_byte(3, self.byte(3) <= 15)?;
        check_byte(4, self.byte(4) < nodes)
    }

    // Clocks and largest constant of a property.
    fn check_property_counts(&self) -> Result<(), SheetFault>
        ensures { result ≡ checked (counts_limits Property self.now.sheet.now) }
    {
        check_byte(1, self.byte(1) == 0)?;
        check_byte(2, self.byte(2) <= 2)?;
        check_byte(3, self.byte(3) <= 15)?;
        check_byte(4, self.byte(4) == 0)
    }

    fn check_edition(&self) -> Result<(), SheetFault>
        ensures { result ≡ checked (edition_limits self.now.sheet.now) }
    {
        check_byte(5, self.byte(5) == 2)?;
        check_byte(6, self.byte(6) == 0)?;
        check_byte(7, self.byte(7) == 0)
    }

    /// The limits of the sheet's size, its letter and its header: refusals 1 to 3.
    pub fn check_header(&self) -> Result<(), SheetFault>
        ensures { result ≡ checked (header_limits self.now.kind self.now.sheet.now) }
    {
        check_limit((16..=65535).contains(&self.sheet.len()), SheetFault::Size)?;
        check_limit(self.byte(0) == self.kind.letter(), SheetFault::Letter)?;
        self.check_counts()?;
        self.check_edition()
    }

    /// The limits of the directory: refusals 4 and 5.
    pub fn check_directory(&self) -> Result<(), DirectoryFault>
        ensures { result ≡ checked (directory_limits self.now.kind self.now.sheet.now) }
    {
        let first = self.pair(RECORDS);
        let second = self.pair(CONDITIONS);
        let bytes = self.sheet.len();
        check_limit(first.lies_within(16, bytes), bounds(RECORDS))?;
        check_limit(second.lies_within(first.end(), bytes), bounds(CONDITIONS))?;
        check_limit(self.kind.records().fills(first.len), count(RECORDS))?;
        check_limit(RecordKind::Conditions.fills(second.len), count(CONDITIONS))
    }

    /// The limits of every condition record: refusal 6.
    pub fn check_conditions(&self) -> Result<(), RecordFault>
        ensures { result ≡ checked (conditions_limits self.now.sheet.now) }
    {
        let rules = ConditionRules {
            clocks: self.byte(2),
            constant: self.byte(3),
            at: self.pair(CONDITIONS).from,
        };
        rules.check_each(self.section(CONDITIONS))
    }
}
