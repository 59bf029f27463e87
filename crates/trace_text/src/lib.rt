//! Traces: how a run is powered, and what devices post.
#![tactic(auto)]

mod fault;
mod fields;
mod laws;
mod number;
mod script;
mod statement;
mod trace;

pub use fault::TraceFault;
pub use laws::{
    each_line_says_at_most_one_thing, each_text_has_one_answer, scripts_are_within_the_limits,
};
pub use number::number_in;
pub use trace::read_trace;
