ghost use Rattle.std.specs.Prelude.{◌≡◌, [], IfNone, IfSome, Some};
ghost use Rattle.coati_board.specs.Board.{CanBeRun, IsSameRun, end_of};
ghost use Rattle.executor.specs.InTurn.{ArePostingsInTurn, turns_of};
ghost use Rattle.executor.specs.Run.{CanBeRaised, HasMadeAllSteps, HasNoneDue, HasRun, IsDue};

use coati_board::Board;
use serial_log::{End, Posting};

/// Runs the board's script to its end, and closes the board. Before each step the first posting
/// that is left is raised, where its time has come. The run ends where nothing is left to do and
/// no posting is left, or at the limit. It takes no memory.
pub fn run_scripted(board: &mut Board) -> End
    requires fresh { CanBeRun board.old }
    ensures run { IsSameRun board.old board.new }
    ensures exact { HasRun board.old result board.new }
    ensures turns { ArePostingsInTurn board.old.script.postings board.new.device.history.marks }
    ensures all { result ≡ End.Idle
        → (turns_of board.old.script.postings board.new.device.history.marks).left ≡ [] }
    ensures limit { result ≡ End.Limit → HasMadeAllSteps board.new }
    ensures closed { end_of board.new.device.history.marks ≡ Some result }
{
    // The script's postings are of the eight devices.
    let _script = board.script();
    loop {
        if let Some(posting) = next_due(board) {
            let _ = board.post_next(posting.device);
            continue;
        }
        if board.is_over() || board.executor_steps() >= board.limit() {
            return board.close();
        }
        board.step();
    }
}

// The first posting that is left, where its time has come.
fn next_due(board: &Board) -> Option<Posting>
    ensures some { IfSome result (IsDue board.now) }
    ensures can { IfSome result (CanBeRaised board.now) }
    ensures none { IfNone result (HasNoneDue board.now) }
{
    match board.first_left() {
        Some(posting) if posting.time <= board.clock() => Some(posting),
        _ => None,
    }
}
