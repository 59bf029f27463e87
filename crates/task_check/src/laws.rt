//! What follows from the definitions: each function's contract is a law, and its body is empty.

ghost use Rattle.task_check.specs.Accepted.{IsAccepted};
ghost use Rattle.task_check.specs.Messages.{HasShortMessages};
ghost use Rattle.task_check.specs.RefusalLaws.{RefusalIsOne, RefusedIsNotAccepted};
ghost use Rattle.task_syntax.specs.declared.program.Program.{Program};

/// No accepted program is refused at a rule.
pub fn refused_is_not_accepted()
    ensures { RefusedIsNotAccepted }
{}

/// A program is refused at one rule and one place.
pub fn refusal_is_one()
    ensures { RefusalIsOne }
{}

/// Each message in an accepted program has at most four words.
pub fn accepted_messages_are_short()
    ensures { (program : Program) → IsAccepted program → HasShortMessages program }
{}
