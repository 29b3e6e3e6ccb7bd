//! A device that is told by a sheet: a table of edges and conditions, read where they stand.
#![tactic(auto)]

mod answers;
mod edges;
mod held;
mod load;

pub use held::Table;
