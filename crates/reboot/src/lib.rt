//! What the device does when power comes back.
#![tactic(auto)]

mod phases;

pub use phases::{Phase, after_cut};
