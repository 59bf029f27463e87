//! Stores into logs. A store of a word that is in the log is one write; else it takes three, and
//! only the last one tells.
#![tactic(auto)]

pub mod laws;
mod store;

pub use store::{reset_write, store_write};
