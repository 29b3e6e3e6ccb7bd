//! What a device sheet means.
#![tactic(auto)]
