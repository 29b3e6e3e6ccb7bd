//! What comes of loading a sheet.
use super::sheets::Sheet;
use device::{Device, Number};
use property::Property;
use sheet::SheetKind;
use std::alloc::{AllocError, Global};
use std::fmt;
use table::Table;
use wording::Refused;

/// Shown as `accepted`, or as the line that tells the refusal.
#[derive(Clone, Copy)]
pub struct Verdict(pub Result<(), Refused>);

impl fmt::Display for Verdict {
    fn fmt<W: fmt::Write>(&self, f: &mut fmt::Formatter<W>) -> fmt::Result {
        match self.0 {
            Ok(()) => write!(f, "accepted"),
            Err(refused) => write!(f, "{refused}"),
        }
    }
}

/// What a sheet of one kind is loaded into.
#[derive(Drop)]
pub enum Held<'a> {
    Device(Table<'a>),
    Property(Property),
}

impl<'a> Held<'a> {
    /// A new table or a new property.
    pub(crate) fn new(heap: Global, kind: SheetKind) -> Result<Held<'a>, AllocError> {
        Ok(match kind {
            SheetKind::Device => Held::Device(Table::new()),
            SheetKind::Property => Held::Property(Property::new(heap)?),
        })
    }

    /// Loads a sheet of its kind.
    pub(crate) fn load(&mut self, bytes: &'a [u8]) -> Verdict {
        let (kind, answer) = match self {
            Held::Device(table) => (SheetKind::Device, table.load(bytes)),
            Held::Property(property) => (SheetKind::Property, property.load(bytes)),
        };
        Verdict(answer.map_err(|fault| Refused { kind, fault }))
    }

    /// How many edges or lines there are.
    pub(crate) fn count(&self) -> u32 {
        match self {
            Held::Device(table) => table.number(Number::EdgeNumbers),
            Held::Property(property) => u32::from(property.line_count()),
        }
    }
}

/// Loads a sheet of this kind into a new table or a new property.
pub(crate) fn judge(heap: Global, kind: SheetKind, bytes: &[u8]) -> Result<Verdict, AllocError> {
    Ok(Held::new(heap, kind)?.load(bytes))
}

/// A line: the sheet's name, what was done to it, and what comes of loading it.
pub(crate) fn print_verdict(rt: &HostRuntime, sheet: &Sheet, change: &str) -> anyhow::Result<()> {
    let name = sheet.name;
    let verdict = judge(rt.alloc(), sheet.kind, sheet.bytes.as_slice())?;
    println!(rt; "{name}, {change}: {verdict}")?;
    Ok(())
}

/// What the records of a sheet of this kind are.
// Kept: one word for each of two kinds; a type that is displayed would be longer and no plainer.
pub(crate) fn records_of(kind: SheetKind) -> &'static str {
    match kind {
        SheetKind::Device => "edges",
        SheetKind::Property => "lines",
    }
}
