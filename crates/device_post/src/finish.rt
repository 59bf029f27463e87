//! What is left of a run behind its threads, on the plain board.

ghost use Rattle.std.specs.Prelude.{◌≡◌};
ghost use Rattle.coati_board.specs.Board.{IsOpen, IsSameRun};
ghost use Rattle.coati_board.specs.Postings.{HasNoneLeft};
ghost use Rattle.booth.specs.Left.{HasRoom};
ghost use Rattle.device_post.specs.RunOut.{HasCome, HasRunOut};

use coati_board::Board;

/// Raises each posting that is left, and makes steps until nothing is left to do or the limit is
/// reached. No memory is taken.
pub(crate) fn finish(board: &mut Board)
    requires room { HasRoom board.old }
    requires open { IsOpen board.old }
    ensures { HasRunOut board.old board.new }
{
    raise_rest(board);
    step_rest(board);
    // Each device has raised its postings in their order, and none is left.
    let _history = board.history();
    let _left = board.first_left();
}

// Raises each posting that is left, in the script's order.
fn raise_rest(board: &mut Board)
    requires room { HasRoom board.old }
    requires open { IsOpen board.old }
    ensures same { IsSameRun board.old board.new }
    ensures room { HasRoom board.new }
    ensures open { IsOpen board.new }
    ensures none { HasNoneLeft board.new }
{
    while let Some(posting) = board.first_left() {
        let _answer = board.post_next(posting.device);
    }
}

// Makes steps until nothing is left to do or the limit is reached.
fn step_rest(board: &mut Board)
    requires room { HasRoom board.old }
    requires open { IsOpen board.old }
    requires none { HasNoneLeft board.old }
    ensures same { IsSameRun board.old board.new }
    ensures open { IsOpen board.new }
    ensures none { HasNoneLeft board.new }
    ensures come { HasCome board.new }
{
    while !board.is_idle() && board.executor_steps() < board.limit() {
        board.step();
    }
}
