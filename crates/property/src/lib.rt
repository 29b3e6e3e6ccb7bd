//! A property in memory: its lines, its clocks and its largest constant.
#![tactic(auto)]

mod answers;
mod held;
mod lines;
mod load;

pub use held::Property;
pub use property_sheet::Line;
