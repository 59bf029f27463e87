//! Where a fault of an input is, in lines and words.
#![tactic(auto)]

mod accepted;
mod answer;
mod asked;
mod call;
mod hint;
mod label;
mod laws;
mod message;
mod messages;
mod shown;
mod source_text;
mod spot;
mod token_text;
mod trace_message;
mod words;

pub use call::explain;
pub use laws::{places_lie_in_their_lines, traces_stand_behind_their_sources};
pub use spot::Spot;
