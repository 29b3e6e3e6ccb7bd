//! The two kinds of sheet and the three kinds of record.
ghost use Rattle.std.specs.Prelude.{◌≡◌, ◌<◌, [], ◌∷◌};
ghost use Rattle.sheet.specs.Kinds.{Conditions, letter_of, sections_of, size_of, least_of, most_of};
ghost use Rattle.sheet.specs.Layout.{count_fits};

/// What a sheet describes.
#[derive(Clone, Copy, PartialEq, Eq, Debug)]
pub enum SheetKind {
    Device,
    Property,
}

impl SheetKind {
    /// The first byte of such a sheet: `D` or `P`.
    pub(crate) fn letter(self) -> u8
        ensures { result ≡ letter_of self }
    {
        match self {
            SheetKind::Device => b'D',
            SheetKind::Property => b'P',
        }
    }

    /// What the first section of such a sheet is made of; the second has conditions.
    pub(crate) fn records(self) -> RecordKind
        ensures { result ∷ Conditions ∷ [] ≡ sections_of self }
    {
        match self {
            SheetKind::Device => RecordKind::Edges,
            SheetKind::Property => RecordKind::Lines,
        }
    }
}

/// What a section is made of.
#[derive(Clone, Copy, PartialEq, Eq, Debug)]
pub enum RecordKind {
    Edges,
    Lines,
    Conditions,
}

/// How many bytes a record has, and how many records a section has at least and at most.
#[derive(Clone, Copy)]
struct Sizes {
    size: u16,
    least: u16,
    most: u16,
    ghost positive: { 0 < size },
}

impl RecordKind {
    fn sizes(self) -> Sizes
        ensures size { result.size ≡ size_of self }
        ensures least { result.least ≡ least_of self }
        ensures most { result.most ≡ most_of self }
    {
        let (size, least, most) = match self {
            RecordKind::Edges => (8, 0, 256),
            RecordKind::Lines => (4, 1, 200),
            RecordKind::Conditions => (4, 0, 1024),
        };
        Sizes { size, least, most }
    }

    /// Whether so many bytes are a whole number of such records, as many as there may be.
    pub(crate) fn fills(self, len: u16) -> bool
        ensures { result ≡ count_fits self len }
    {
        let sizes = self.sizes();
        let count = len / sizes.size;
        len % sizes.size == 0 && (sizes.least..=sizes.most).contains(&count)
    }
}
