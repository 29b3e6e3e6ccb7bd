//! Sheets of bytes: their header, their directory of sections and their condition records, the
//! faults of the three layers, and a reader that hands out the sections.
#![tactic(auto)]

mod conditions;
mod faults;
mod input;
mod kinds;
mod parts;
mod reader;
mod sheets;

pub use conditions::read_condition;
pub use faults::{DirectoryFault, Layer, RecordFault, Refusal, SheetFault};
pub use input::Input;
pub use kinds::{RecordKind, SheetKind};
pub use reader::{Reader, Sections};
pub use sheets::{SheetRecords, check_sheet};
