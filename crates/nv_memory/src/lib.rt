//! Nonvolatile memory: one list of words that outlives a cut of power, of which a step writes one
//! at most.
#![tactic(auto)]

pub mod header;
mod image;
pub mod laws;
mod layout;
mod log;
mod logs;
mod readers;
mod write;

pub use image::Image;
pub use layout::Layout;
pub use log::Log;
pub use write::Write;
