ghost use Rattle.std.specs.Prelude.{◌≡◌};
ghost use Rattle.task_check.specs.BodyRules.{read};
ghost use Rattle.task_check.specs.Counts.{bad_loops_step, bad_turns};
ghost use Rattle.task_check.specs.Least.{least};
ghost use Rattle.task_check.specs.Within.{bare};

use super::body::Body;
use crate::least::place_unless;
use crate::within::least_within;
use coati_word::limits::LOOP_TURNS;
use task_syntax::Stmt;

/// The loop of a body whose count doesn't fit.
pub(crate) fn bad_turns(body: &Body<'_>) -> Option<u32>
    ensures { result ≡ least (bad_turns (read body.now)) }
{
    least_within(body.statements, &bad_loop)
}

/// The name of the loop that the statement is, where that has no turn or more than 50,000.
fn bad_loop(statement: &Stmt) -> Option<u32>
    ensures { result ≡ least (bad_loops_step (bare statement.now)) }
{
    match statement {
        Stmt::Repeat(name, count, _) => place_unless((1..=LOOP_TURNS).contains(count), name.at),
        _ => None,
    }
}
