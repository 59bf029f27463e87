//! Commits, write by write. Each call answers the next write from the image alone, and none of
//! them changes what the image stands for.
#![tactic(auto)]

mod event;
mod into_tx;
pub mod laws;
mod marker;
mod next;
mod prepare;
mod stands;
mod unit;
mod variables;
mod words;

pub use marker::{Marker, mark_write};
pub use next::next_write;
pub use prepare::{prepare_event, prepare_write};
pub use stands::{committed, place};
