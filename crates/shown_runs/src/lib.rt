//! That the numbers which the text of a run tells are in range.
#![tactic(auto)]

pub mod laws;
