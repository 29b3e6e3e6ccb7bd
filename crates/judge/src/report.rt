//! What a judging comes to.
use chart::{RunRefusal, Verdict};
use sheet::SheetFault;

/// The verdict of a settled run, with its rows, strikes and examinations.
#[derive(Clone, Copy, PartialEq, Eq, Debug)]
pub struct Judgement {
    pub verdict: Verdict,
    pub rows: u32,
    pub strikes: u32,
    pub examinations: u32,
}

/// A sheet is refused, the device's first; a call of the run is; or the property is judged.
#[derive(Clone, Copy, PartialEq, Eq, Debug)]
pub enum Report {
    // Kept: no `Result`, since a refusal is a report as a verdict is, and each is printed as the one
    // line.
    DeviceRefused(SheetFault),
    PropertyRefused(SheetFault),
    RunRefused(RunRefusal),
    Judged(Judgement),
}
