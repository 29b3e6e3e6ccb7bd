//! Clock regions of up to six clocks: classes of times and of differences, resets, successors and
//! tests of conditions.
#![tactic(auto)]

mod classes;
mod conditions;
mod limits;
mod lookups;
mod reads;
mod resets;
mod space;
mod successors;

pub use classes::Region;
pub use space::Space;
