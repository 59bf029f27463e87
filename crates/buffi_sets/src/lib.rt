//! What `buffi` decides by flags: which words the tasks read, whether an event clashes with them,
//! what a handler reads, and how an aborted transaction is undone.
#![tactic(auto)]

mod conflicts;
mod flags;
pub mod laws;
mod undo;
mod view;

pub use conflicts::conflict;
pub use flags::{flag_write, unflag_write};
pub use undo::{abort_write, doom_write};
pub use view::event_view;
