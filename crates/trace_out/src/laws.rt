//! What the definitions of printed texts come to.
ghost use Rattle.std.specs.Prelude.{◌≡◌, ℕ, List};
ghost use Rattle.serial_log.specs.declared.printed.Printed.{Printed};
ghost use Rattle.task_check.specs.Accepted.{IsAccepted};
ghost use Rattle.task_check.specs.WellFormed.{IsWellFormed};
ghost use Rattle.task_syntax.specs.declared.program.Program.{Program};
ghost use Rattle.trace_out.specs.Answer.{IsAnswered};
ghost use Rattle.trace_out.specs.Printed.{IsBadLine, PrintedText};
ghost use Rattle.trace_out.specs.ShownRun.{RunsSayWhatTheyShow};
ghost use Rattle.trace_out.specs.ShownRuns.{LegalRunsShowSerialTexts};

use serial_log::laws::legal_histories_keep_each_fact;

/// For an accepted program each text says one thing or has one first bad line, and not both.
pub fn each_text_says_one_thing()
    ensures one { (program : Program) (text : List ℕ) → IsAccepted program → IsWellFormed program
        → IsAnswered program text }
    ensures printed { (program : Program) (text : List ℕ) (printed other : Printed)
        → IsAccepted program → IsWellFormed program
        → PrintedText program text printed → PrintedText program text other → printed ≡ other }
    ensures line { (program : Program) (text : List ℕ) (number other : ℕ)
        → IsBadLine program text number → IsBadLine program text other → number ≡ other }
    ensures apart { (program : Program) (text : List ℕ) (printed : Printed) (number : ℕ)
        → IsAccepted program → IsWellFormed program
        → PrintedText program text printed → IsBadLine program text number → ⊥ }
{}

/// The text of a run whose numbers are in range is a printed text, and says what the run shows.
pub fn runs_say_what_they_show()
    ensures { RunsSayWhatTheyShow }
{}

/// What a legal run shows is serial and legal.
pub fn legal_runs_show_serial_texts()
    ensures { LegalRunsShowSerialTexts }
{
    legal_histories_keep_each_fact();
}
