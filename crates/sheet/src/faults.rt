//! Why a sheet is refused. A record's fault is held in the directory's, and that in the sheet's.
ghost use Rattle.std.specs.Prelude.{◌≡◌, [], ◌∷◌};
ghost use Rattle.sheet.specs.Faults.{number_of, record_fault, record_refusal, refusal_of, place_of, layer_of, InDirectory, InRecord};
ghost use Rattle.sheet.specs.Limits.{checked, limit};

use super::kinds::RecordKind;

/// One limit of a sheet: unless it is kept, its fault.
pub(crate) fn check_limit<E: Copy>(kept: bool, fault: E) -> Result<(), E>
    ensures { result ≡ checked (limit kept fault ∷ []) }
{
    if kept { Ok(()) } else { Err(fault) }
}

/// The part of a sheet that a fault was found in.
#[derive(Clone, Copy, PartialEq, Eq, Debug)]
pub enum Layer {
    Sheet,
    Directory,
    Record,
}

/// Why a sheet is refused, in the order of checking.
#[derive(Clone, Copy, PartialEq, Eq, Debug)]
pub enum Refusal {
    /// The sheet is too short or too long.
    BadSize = 1,
    /// Its first byte is not the letter of its kind.
    BadLetter,
    /// A byte of its header breaks a limit.
    BadHeader,
    /// A section does not lie where it may.
    BadBounds,
    /// A section is no whole number of records, or has too many or too few.
    BadCount,
    /// A condition breaks a limit.
    BadCondition,
    /// An edge breaks a limit.
    BadEdge,
    /// A line breaks a limit.
    BadLine,
}

impl Refusal {
    /// The number of this refusal, 1 to 8.
    pub fn number(self) -> u8
        ensures { result ≡ number_of self }
    {
        self as u8
    }
}

/// A record with a field that breaks a limit; the place is the field's first byte.
#[derive(Clone, Copy, PartialEq, Eq, Debug)]
pub struct RecordFault {
    pub kind: RecordKind,
    pub place: usize,
}

impl RecordKind {
    /// The fault of such a record, told at this byte.
    pub fn fault(self, place: usize) -> RecordFault
        ensures { result ≡ record_fault self place }
    {
        RecordFault { kind: self, place }
    }

    /// The limit of a field of such a record: unless it is kept, the fault at the field's byte.
    pub fn require(self, kept: bool, place: usize) -> Result<(), RecordFault>
        ensures { result ≡ checked (limit kept (record_fault self place) ∷ []) }
    {
        check_limit(kept, self.fault(place))
    }

    // Why a sheet is refused in which such a record breaks a limit.
    fn refusal(self) -> Refusal
        ensures { result ≡ record_refusal self }
    {
        match self {
            RecordKind::Conditions => Refusal::BadCondition,
            RecordKind::Edges => Refusal::BadEdge,
            RecordKind::Lines => Refusal::BadLine,
        }
    }
}

/// A section out of bounds or of a wrong length, or a fault in one of its records.
#[derive(Clone, Copy, PartialEq, Eq, Debug)]
pub enum DirectoryFault {
    Bounds { place: usize },
    Count { place: usize },
    InRecord(RecordFault),
}

/// A sheet's own fault, or one of its directory's.
#[derive(Clone, Copy, PartialEq, Eq, Debug)]
pub enum SheetFault {
    Size,
    Letter,
    Header { place: usize },
    InDirectory(DirectoryFault),
}

impl From<RecordFault> for DirectoryFault {
    ghost from_gives = { λ e r. r ≡ InRecord e };

    fn from(e: RecordFault) -> DirectoryFault {
        DirectoryFault::InRecord(e)
    }
}

impl From<DirectoryFault> for SheetFault {
    ghost from_gives = { λ e r. r ≡ InDirectory e };

    fn from(e: DirectoryFault) -> SheetFault {
        SheetFault::InDirectory(e)
    }
}

impl SheetFault {
    /// The cause, whichever layer it was found in.
    pub fn refusal(self) -> Refusal
        ensures { result ≡ refusal_of self }
    {
        match self {
            SheetFault::Size => Refusal::BadSize,
            SheetFault::Letter => Refusal::BadLetter,
            SheetFault::Header { .. } => Refusal::BadHeader,
            SheetFault::InDirectory(DirectoryFault::Bounds { .. }) => Refusal::BadBounds,
            SheetFault::InDirectory(DirectoryFault::Count { .. }) => Refusal::BadCount,
            SheetFault::InDirectory(DirectoryFault::InRecord(fault)) => fault.kind.refusal(),
        }
    }

    /// The byte of the sheet that the fault is told at.
    pub fn place(self) -> usize
        ensures { result ≡ place_of self }
    {
        match self {
            SheetFault::Size | SheetFault::Letter => 0,
            SheetFault::Header { place } => place,
            SheetFault::InDirectory(
                DirectoryFault::Bounds { place } | DirectoryFault::Count { place },
            ) => place,
            SheetFault::InDirectory(DirectoryFault::InRecord(fault)) => fault.place,
        }
    }

    /// The layer that the fault was found in.
    pub fn layer(self) -> Layer
        ensures { result ≡ layer_of self }
    {
        match self {
            SheetFault::InDirectory(DirectoryFault::InRecord(_)) => Layer::Record,
            SheetFault::InDirectory(_) => Layer::Directory,
            _ => Layer::Sheet,
        }
    }
}
