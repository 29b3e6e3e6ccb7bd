//! Devices, properties and refusals in plain words.
#![tactic(auto)]

mod devices;
mod each;
mod lines;
mod properties;
mod refusals;
mod terms;

pub use devices::device_text;
pub use properties::property_text;
pub use refusals::{Refused, refusal_text};

/// A value that is shown in words.
#[derive(Clone, Copy)]
pub struct InWords<T>(pub T);
