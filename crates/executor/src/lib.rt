//! A scripted run of a board.
#![tactic(auto)]

mod scripted;

pub use scripted::run_scripted;
