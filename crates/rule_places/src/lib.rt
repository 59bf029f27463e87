//! That a broken rule is told at a token of its source.
#![tactic(auto)]

pub mod laws;
