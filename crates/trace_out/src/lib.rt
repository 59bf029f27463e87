//! Printed texts of runs: a run is printed, and what a printed text says is read back.
#![tactic(auto)]

mod fault;
mod frame;
mod front;
mod labels;
mod laws;
mod lookups;
mod mark_reader;
mod marks;
mod names;
mod numbers;
mod output;
mod print_end;
mod print_reader;
mod printer;
mod raised;
mod readings;
mod shown;
mod stage;
mod units;

pub use fault::PrintFault;
pub use laws::{each_text_says_one_thing, legal_runs_show_serial_texts, runs_say_what_they_show};
pub use output::{put, put_number, put_number_line};
pub use print_end::PrintEnd;
pub use print_reader::read_print;
pub use printer::print;
