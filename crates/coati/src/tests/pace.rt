//! What a board needs before each step.

ghost use Rattle.std.specs.Prelude.{◌≡◌, IfOk};
ghost use Rattle.coati_board.specs.Board.{IsOpen};

use super::accepted;
use coati_board::Board;
use coati_word::Mode;
use codegen::compile;
use serial_log::{Mark, MarkKind, Unit};
use std::alloc::Global;
use std::process::Abort;
use std::test::Fail;
use task_cost::bounds;
use trace_text::{read_trace, scripts_are_within_the_limits};

const COUNTING: &str = "nv n = 0; task main { n = n + 1; if n < 3 { next main; } else { halt; } }";

const BETWEEN_UNITS: &str =
    "nv a = 1; nv b = 0; buffer 1; event e(v) { top { give v + 1; } bottom(x) { b = a + x; } } \
    transaction t { task p { a = a + 1; next q; } task q { a = a * 10; halt; } }";

const GIVEN_UP: &str =
    "nv a = 1; nv b = 0; buffer 2; event e(v) { top { give v; } bottom(x) { a = x; } } \
    transaction t { task p { b = a; next q; } task q { b = b + 1; halt; } }";

/// A board of the source before its first step, with room for a run by the trace, whose lines are
/// separated by ` / `.
fn opened(
    rt: &impl Abort,
    alloc: Global,
    mode: Mode,
    source: &str,
    trace: &str,
) -> Result<Board, Fail>
    ensures { IfOk result IsOpen }
{
    scripts_are_within_the_limits();
    let checked = accepted(rt, alloc, source.as_bytes())?;
    let lines = trace.replace(alloc, " / ", "\n")?;
    assert!(rt; lines.len() < 1000);
    let script = read_trace(alloc, &checked, lines.as_bytes())?;
    let code = compile(alloc, &checked)?;
    let mut board = Board::open(alloc, checked, code, mode, script)?;
    board.reserve(1000)?;
    Ok(board)
}

/// The next posting is raised, where its time has come.
fn raise_due(rt: &impl Abort, board: &mut Board)
    requires { IsOpen board.old }
    ensures { IsOpen board.new }
{
    if let Some(posting) = board.first_left() {
        if posting.time <= board.clock() {
            assert!(rt; bounds(board.checked()).h <= board.spare());
            let _ = board.post_next(posting.device);
        }
    }
}

/// Whether a task ends with one of these marks, or the power comes back.
fn goes_further(marks: &[Mark]) -> bool {
    for mark in marks {
        match mark.kind {
            MarkKind::Boot(_) | MarkKind::Done(_) => return true,
            MarkKind::Commit(committed) => {
                if !matches!(committed.unit, Unit::Event(_)) {
                    return true;
                }
            }
            MarkKind::Posted(_) | MarkKind::Abort(_) | MarkKind::End(_) => {}
        }
    }
    false
}

/// A step leaves less to do, unless a task ends with it, or the power is cut behind it.
fn step_needs_less(rt: &impl Abort, board: &mut Board)
    requires { IsOpen board.old }
    ensures { IsOpen board.new }
{
    assert!(rt; board.spare() > 0 && board.executor_steps() < board.limit());
    let told = board.history().marks().len();
    let before = board.need();
    assert!(rt; before <= bounds(board.checked()).b);
    board.step();
    let further = match board.history().marks().get(told..) {
        Some(marks) => goes_further(marks),
        None => true,
    };
    assert!(rt; further || board.need() < before, "at {}", board.clock());
}

#[test]
fn a_board_needs_less_with_each_step(rt: HostRuntime) -> Result<(), Fail> {
    let table = [
        (Mode::Split, COUNTING, "limit 100 / power 13"),
        (Mode::Split, BETWEEN_UNITS, "limit 100 / at 17 0 e 5"),
        (Mode::Buffi, GIVEN_UP, "limit 100 / at 18 0 e 9"),
    ];
    for (mode, source, trace) in table {
        let mut board = opened(&rt, rt.alloc(), mode, source, trace)?;
        for _ in 0..100u32 {
            raise_due(&rt, &mut board);
            if board.is_over() {
                break;
            }
            step_needs_less(&rt, &mut board);
        }
        assert!(rt; board.is_over(), "{source}");
        assert_eq!(rt; board.need(), 0);
    }
    Ok(())
}
