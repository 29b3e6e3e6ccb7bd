//! Two devices on one radio, as one device.
#![tactic(auto)]

mod answers;
mod held;
mod joints;
mod refusals;
mod rows;
mod side;
mod sides;
mod synchroniser;

pub use held::Pair;
pub use refusals::PairRefusal;
pub use synchroniser::Synchroniser;
