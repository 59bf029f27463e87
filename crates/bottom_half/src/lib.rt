//! Deferred work: the bottom half of the oldest posting, which runs between the units.
#![tactic(auto)]

mod job;

pub use job::{Job, pick};
