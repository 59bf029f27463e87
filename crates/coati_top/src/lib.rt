//! The top call: what a command line does with an input and an output.
#![tactic(auto)]

mod answer;
mod check_text;
mod command;
mod divided;
mod drive;
mod judged_texts;
mod laws;
mod load_text;
mod loaded;
mod refusal;
mod replayed;
mod served;
mod source;
mod source_fault;
mod source_refusal;
mod status;
mod still;
mod tally;
mod trace_refusal;
mod verdict_text;

pub use command::{Command, command_of};
pub use divided::{second_part, source_part};
pub use judged_texts::printed_texts_may_be_judged;
pub use laws::{
    an_input_has_one_division, runs_replay_serially, runs_tell_numbers_in_range,
    spelled_programs_are_well_formed,
};
pub use source::read_source;
pub use source_fault::{NoProgram, SourceFault};
pub use source_refusal::{put_rule, rule_number};
pub use status::{Done, Status};
pub use still::{coati_still, deliver};
pub use trace_out::{put, put_number};
