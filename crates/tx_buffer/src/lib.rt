//! What a transaction keeps over cuts of power: its log and flags, and how a task's log and flags
//! go into them, write by write.
#![tactic(auto)]

mod clear;
mod headers;
pub mod laws;
mod merge;
mod table;
mod values;

pub use clear::clear_write;
pub use headers::header_write;
pub use merge::merge_write;
pub use table::places;
pub use values::look;
