//! What the definitions of an input come to.
ghost use Rattle.std.specs.Prelude.{◌≡◌, ℕ, List};
ghost use Rattle.coati_top.specs.Divided.{IsDivided, second_part, source_part};
ghost use Rattle.coati_top.specs.ReplayedRuns.{RunsReplaySerially, RunsTellNumbersInRange};
ghost use Rattle.task_check.specs.WellFormed.{IsWellFormed};
ghost use Rattle.task_lex.specs.Reading.{Tokens};
ghost use Rattle.task_parse.specs.Faults.{Spells};

use task_lex::{Token, tokens_stand_in_their_source};
use task_syntax::Program;
use trace_out::{legal_runs_show_serial_texts, runs_say_what_they_show};
use trace_text::scripts_are_within_the_limits;
use word_values::laws::spelled_programs_are_of_words;

/// The two parts of an input divide it, and no others do.
pub fn an_input_has_one_division()
    ensures parts { (input : List ℕ) → IsDivided input (source_part input) (second_part input) }
    ensures only { (input source second : List ℕ) → IsDivided input source second
        → (source ≡ source_part input) × (second ≡ second_part input) }
{}

/// A program that the tokens of a source spell has names alone for names, and a task in each unit.
pub fn spelled_programs_are_well_formed()
    ensures { (source : List ℕ) (tokens : List Token) (program : Program)
        → Tokens source tokens → Spells source tokens program → IsWellFormed program }
{
    tokens_stand_in_their_source();
}

/// The numbers that the text of a run tells are in range: those of its marks, of its readings, of
/// its variables, and of the postings that are held.
pub fn runs_tell_numbers_in_range()
    ensures { RunsTellNumbersInRange }
{
    spelled_programs_are_well_formed();
    spelled_programs_are_of_words();
    scripts_are_within_the_limits();
    shown_runs::laws::runs_tell_numbers_in_range();
}

/// The text of a run is serial and legal where it is replayed.
pub fn runs_replay_serially()
    ensures { RunsReplaySerially }
{
    runs_tell_numbers_in_range();
    runs_say_what_they_show();
    legal_runs_show_serial_texts();
}
