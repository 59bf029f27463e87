//! What follows from the definitions: each function's contract is a law.

ghost use Rattle.shown_runs.specs.Laws.{RunsAreCounted, RunsTellNumbersInRange};

use serial_log::laws::legal_histories_keep_each_fact;
use task_syntax::laws::variables_alone_are_touched;
use word_values::laws::programs_stay_in_words;

/// No unit of a run has more tasks than the executor has made steps, the readings of all records
/// are there, and the clock counts the steps of the executor and of the handlers.
pub fn runs_are_counted()
    ensures { RunsAreCounted }
{}

/// The numbers that the text of a run tells are in range: those of its marks, of its readings, of
/// its variables, and of the postings that are held.
pub fn runs_tell_numbers_in_range()
    ensures { RunsTellNumbersInRange }
{
    variables_alone_are_touched();
    programs_stay_in_words();
    legal_histories_keep_each_fact();
}
