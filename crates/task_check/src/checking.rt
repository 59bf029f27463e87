ghost use Rattle.std.specs.Prelude.{◌≡◌, ℕ, Err, IfErr, IfOk, Ok, OnOk};
ghost use Rattle.task_check.specs.declared.fault.CheckFault.TheVariants.{Rule as BreaksRule};
ghost use Rattle.task_check.specs.declared.rule.Rule.{Rule};
ghost use Rattle.task_check.specs.Accepted.{IsAccepted, IsAnswer, IsFirstBroken, IsFound, IsRefusal};
ghost use Rattle.task_check.specs.WellFormed.{IsWellFormed};

use crate::counts::{bad_buffer, bad_count, too_many_tasks, too_many_words};
use crate::names::names;
use crate::rules::{endings_and_shapes, measures};
use crate::{CheckFault, Checked, Rule};
use coati_word::OutOfMemory;
use std::alloc::Global;
use task_syntax::Program;

/// The program, where it keeps all rules; else the first rule that it breaks, at its least place.
/// The program is given up on a refusal.
pub fn check(alloc: Global, program: Program) -> Result<Checked, CheckFault>
    requires { IsWellFormed program }

    // The answer is the program, which keeps all rules, or its refusal, unless memory was refused.
    ensures same { IfOk result (λ checked. checked ≡ program) }
    ensures accepted { OnOk result (IsAccepted program) }
    ensures refused { IfErr result (IsRefusal program) }

    // A program that keeps all rules is the answer, and one that breaks a rule is refused at the
    // first, unless memory was refused.
    ensures accepts { IsAccepted program → IsAnswer result (Ok program) }
    ensures refuses { (rule : Rule) (at : ℕ) → IsFirstBroken program 1 17 rule at
        → IsAnswer result (Err (BreaksRule rule at)) }
{
    match first_broken(alloc, &program) {
        Err(OutOfMemory) => Err(CheckFault::OutOfMemory),
        Ok(Some((rule, at))) => Err(CheckFault::Rule { rule, at }),
        Ok(None) => Ok(Checked::new(program)),
    }
}

/// The first broken rule, at its least place.
fn first_broken(alloc: Global, program: &Program) -> Result<Option<(Rule, u32)>, OutOfMemory>
    ensures { IfOk result (IsFound program.now 1 17) }
{
    if let Some(broken) = names_and_counts(alloc, program)? {
        return Ok(Some(broken));
    }
    if let Some(broken) = endings_and_shapes(program) {
        return Ok(Some(broken));
    }
    Ok(measures(program))
}

/// The first broken rule of 1 to 7, those on names and counts, at its least place.
fn names_and_counts(alloc: Global, program: &Program) -> Result<Option<(Rule, u32)>, OutOfMemory>
    ensures { IfOk result (IsFound program.now 1 8) }
{
    let found = names(alloc, program)?;
    if let Some(at) = found.twice_named {
        return Ok(Some((Rule::TwiceNamed, at)));
    }
    if let Some(at) = found.unknown {
        return Ok(Some((Rule::Unknown, at)));
    }
    if let Some(at) = found.wrong_kind {
        return Ok(Some((Rule::WrongKind, at)));
    }
    if let Some(at) = bad_count(program) {
        return Ok(Some((Rule::BadCount, at)));
    }
    if let Some(at) = bad_buffer(program) {
        return Ok(Some((Rule::BadBuffer, at)));
    }
    if let Some(at) = too_many_words(program) {
        return Ok(Some((Rule::TooManyWords, at)));
    }
    if let Some(at) = too_many_tasks(program) {
        return Ok(Some((Rule::TooManyTasks, at)));
    }
    Ok(None)
}
