//! From the bytes of an input to the verdict.
#![tactic(auto)]

mod inputs;
mod judging;
mod lines;
mod report;

pub use inputs::judge_input;
pub use judging::judge_device;
pub use lines::report_line;
pub use report::{Judgement, Report};
