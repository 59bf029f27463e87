//! The judge of printed texts: whether each line of one meets its condition, or which is the first
//! that doesn't.
#![tactic(auto)]

mod aborts;
mod commits;
mod fits;
mod judge;
mod laws;
mod least;
mod lines;
mod posts;
mod progress;
mod stage;
mod text;
mod values;
mod verdict;

pub use fits::is_text_of;
pub use laws::{each_text_has_a_verdict, serial_texts_are_legal, verdicts_are_unique};
pub use text::replay;
pub use verdict::Verdict;
