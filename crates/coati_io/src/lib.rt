//! Sources and sinks that count their faults.
#![tactic(auto)]

mod adapters;
mod memory_sink;
mod memory_source;
mod piece;
mod pieces;
mod reading;
mod taking;
mod traits;
mod writing;

pub use adapters::{StdSink, StdSource};
pub use memory_sink::MemSink;
pub use memory_source::MemSource;
pub use piece::Piece;
pub use pieces::Pieces;
pub use reading::{ReadEnd, read_all};
pub use traits::{Failed, Sink, Source};
pub use writing::{WriteEnd, write_all};

#[cfg(test)]
mod tests;
