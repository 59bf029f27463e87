ghost use Rattle.std.specs.Prelude.{◌≡◌, IfOk, IsTrue, OnOk};
ghost use Rattle.task_syntax.specs.Statements.{body};
ghost use Rattle.task_syntax.specs.Units.{task_course};
ghost use Rattle.task_check.specs.Messages.{statements_give};
ghost use Rattle.serial_run.specs.Locals.{locals_of};
ghost use Rattle.serial_run.specs.Moments.{behind, end_of};
ghost use Rattle.serial_run.specs.Runs.{IsRunOf, moment_of};

use crate::locals::Locals;
use crate::run::Run;
use crate::statement::statements;
use coati_word::{Ending, OutOfMemory};
use std::alloc::Global;
use task_check::Checked;
use task_syntax::Stmt;

/// Runs a body on its parameters.
pub(crate) fn run_body<'p>(
    checked: &Checked,
    locals: &mut Locals<'p>,
    run: &mut Run,
    block: &'p [Stmt],
) -> Result<Ending, OutOfMemory>
    requires run { IsRunOf checked.now run.old }
    requires gives { IsTrue (statements_give block.now) }
    ensures ending { IfOk result (λ ending. ending
        ≡ end_of (body checked.now block.now (locals_of locals.old)) (moment_of run.old)) }
    ensures still { OnOk result (IsRunOf checked.now run.new) }
    ensures moment { OnOk result (moment_of run.new
        ≡ behind (body checked.now block.now (locals_of locals.old)) (moment_of run.old)) }
{
    let ending = statements(checked, locals, run, block)?;
    Ok(ending.unwrap_or(Ending::Done))
}

/// Runs a task.
pub(crate) fn run_task(
    alloc: Global,
    checked: &Checked,
    run: &mut Run,
    task: u16,
) -> Result<Ending, OutOfMemory>
    requires run { IsRunOf checked.now run.old }
    ensures ending { IfOk result (λ ending. ending
        ≡ end_of (task_course checked.now task) (moment_of run.old)) }
    ensures still { OnOk result (IsRunOf checked.now run.new) }
    ensures moment { OnOk result (moment_of run.new
        ≡ behind (task_course checked.now task) (moment_of run.old)) }
{
    let mut locals = Locals::new(alloc);
    run_body(checked, &mut locals, run, checked.task_body(task))
}
