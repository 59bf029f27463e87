//! Runs.

ghost use Rattle.std.specs.Prelude.{◌≡◌, ◌+◌, ◌*◌, ◌≤◌, length, IfOk};
ghost use Rattle.coati_board.specs.Served.{IsScript};
ghost use Rattle.task_cost.specs.Limits.{handler_bound};
ghost use Rattle.coati_top.specs.Runs.{IsRun};

use coati_board::Board;
use coati_word::{Mode, OutOfMemory};
use codegen::compile;
use executor::run_scripted;
use serial_log::Script;
use serial_log::laws::legal_histories_keep_each_fact;
use std::alloc::Global;
use task_check::Checked;
use task_cost::bounds;

/// Runs a program by a script to its end. All memory is taken before the first step.
pub(crate) fn run_script(
    alloc: Global,
    checked: Checked,
    mode: Mode,
    script: Script,
) -> Result<Board, OutOfMemory>
    requires script { IsScript checked script }
    requires steps { script.limit + handler_bound checked * length script.postings ≤ 4000000 }
    ensures program { IfOk result (λ run. run.program ≡ checked) }
    ensures script { IfOk result (λ run. run.script ≡ script) }
    ensures run { IfOk result (IsRun mode) }
{
    legal_histories_keep_each_fact();
    let steps = greatest_steps(&checked, &script);
    let code = compile(alloc, &checked)?;
    let mut board = Board::open(alloc, checked, code, mode, script)?;
    board.reserve(steps)?;
    let _end = run_scripted(&mut board);
    // The steps are within the limit, and the history is legal.
    let _steps = board.executor_steps();
    let _history = board.history();
    Ok(board)
}

/// How many machine steps a run may make: those of the executor, and a handler's for each posting.
fn greatest_steps(checked: &Checked, script: &Script) -> u32
    requires { script.now.limit + handler_bound checked.now * length script.now.postings ≤
        4000000 }
    ensures { result ≡ script.now.limit + handler_bound checked.now * length script.now.postings }
{
    script.limit + bounds(checked).h * script.postings.as_slice().len() as u32
}
