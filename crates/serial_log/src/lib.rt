//! What happened in a run: its script, the marks of its history, and which histories are legal.
#![tactic(auto)]

mod abort;
mod end;
mod held;
mod history;
pub mod laws;
mod line;
mod mark;
mod posted;
mod printed;
mod record;
mod script;
mod unit;

pub use abort::AbortOf;
pub use end::End;
pub use held::Held;
pub use history::History;
pub use line::Line;
pub use mark::{Mark, MarkKind};
pub use posted::{Answer, Posted};
pub use printed::Printed;
pub use record::Record;
pub use script::{Periods, Posting, Postings, Script};
pub use unit::Unit;
