//! The ring of postings: what is held, how a posting comes in, and how an event's commit takes the
//! oldest one.
#![tactic(auto)]

pub mod laws;
mod postings;
mod turns;

pub use postings::{entry, held, held_slot, is_full};
pub use turns::{accept_write, fill_write, free_write};
