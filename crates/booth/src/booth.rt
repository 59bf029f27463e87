//! The booth itself.

ghost use Rattle.std.specs.Prelude.{◌≡◌, ◌+◌, ◌*◌, ◌<◌, ◌≤◌, [], IfNone, IfSome, length, sum_by, vec_capacity, vec_len};
ghost use Rattle.coati_board.specs.Board.{IsOpen, IsOpened, IsOver, left_of};
ghost use Rattle.coati_board.specs.Postings.{HasNoneLeft};
ghost use Rattle.task_cost.specs.Limits.{handler_bound};
ghost use Rattle.booth.specs.Acts.{IsPost, IsTold, IsTurn, told_to};
ghost use Rattle.booth.specs.Left.{HasRoom};
ghost use Rattle.booth.specs.Views.{Place, answers_in, fresh_booth, fresh_places, fresh_turns};
ghost use Rattle.booth.specs.Views.{is_accepted, is_full, is_lost};

use crate::answers::{is_accepted, is_full, is_lost};
use crate::beat::Beat;
use crate::names::Names;
use crate::seats::{Seat, TurnSeat, gathered, seated};
use coati_board::Board;
use serial_log::Answer;
use std::marker::{Model, PhantomData};
use std::sync::ledger::{Blank, Book, Ledger};

/// A board with the totals of five ledgers: how many postings were accepted, refused by a full
/// buffer, and lost; the executor's steps; and whether its end was told.
#[derive(Drop)]
pub struct Booth<A: Ledger, F: Ledger, L: Ledger, S: Ledger, E: Ledger, N: Names> {
    board: Board,
    accepted: Book<A>,
    full: Book<F>,
    lost: Book<L>,
    steps: Book<S>,
    ends: Book<E>,
    ended: bool,
    names: PhantomData<N>,
}

impl<A: Ledger, F: Ledger, L: Ledger, S: Ledger, E: Ledger, N: Names> Model
    for Booth<A, F, L, S, E, N> {
    ghost use Rattle.std.specs.Coded.{codes};
    ghost use Rattle.task_syntax.specs.contracts.statement.Stmt as statement;
    ghost use Rattle.booth.specs.Views.{Counted, IsBooth, IsCut};

    ghost Value = { Counted };

    ghost coded = { Prim.hlevel (codes, statement.the_row.coded) };

    ghost view = { λ b. record {
      board = b.board;
      accepted = b.accepted.total;
      full = b.full.total;
      lost = b.lost.total;
      steps = b.steps.total;
      ends = b.ends.total;
    } };

    ghost invariant = { λ b. IsBooth N.program N.mode N.script (record {
      board = b.board;
      accepted = b.accepted.total;
      full = b.full.total;
      lost = b.lost.total;
      steps = b.steps.total;
      ends = b.ends.total;
    }) b.ended × IsCut A.parts F.parts L.parts S.parts E.parts };
}

/// The ledgers that a booth is opened with: three of eight parts, two of one part.
pub struct Blanks {
    pub accepted: Blank,
    pub full: Blank,
    pub lost: Blank,
    pub steps: Blank,
    pub ends: Blank,
}

impl<A: Ledger, F: Ledger, L: Ledger, S: Ledger, E: Ledger, N: Names> Booth<A, F, L, S, E, N> {
    /// A booth of a board before its first step, with its seats. `devices` has room for eight. No
    /// memory is taken.
    pub fn open(
        board: Board,
        blanks: Blanks,
        devices: Vec<Seat<A, F, L, S, E, N>>,
    ) -> (
        Booth<A, F, L, S, E, N>,
        Vec<Seat<A, F, L, S, E, N>>,
        TurnSeat<A, F, L, S, E, N>,
    )
        requires accepted { (blanks.accepted.name ≡ A.name) × (blanks.accepted.parts ≡ A.parts) }
        requires full { (blanks.full.name ≡ F.name) × (blanks.full.parts ≡ F.parts) }
        requires lost { (blanks.lost.name ≡ L.name) × (blanks.lost.parts ≡ L.parts) }
        requires steps { (blanks.steps.name ≡ S.name) × (blanks.steps.parts ≡ S.parts) }
        requires ends { (blanks.ends.name ≡ E.name) × (blanks.ends.parts ≡ E.parts) }
        requires cut { (blanks.accepted.parts ≡ 8) × (blanks.full.parts ≡ 8)
            × (blanks.lost.parts ≡ 8) × (blanks.steps.parts ≡ 1) × (blanks.ends.parts ≡ 1) }
        requires opened { IsOpened N.program N.mode N.script board }
        requires room { board.script.limit
            + handler_bound board.program * length board.script.postings ≤ board.device.spare }
        requires devices { (devices.items ≡ []) × (8 ≤ vec_capacity devices) }
        ensures board { result.0 ≡ fresh_booth board }
        ensures devices { result.1.items ≡ fresh_places 8 }
        ensures turns { result.2 ≡ fresh_turns }
    {
        let Blanks {
            accepted,
            full,
            lost,
            steps,
            ends,
        } = blanks;
        let (accepted, all_accepted) = accepted.open::<A>();
        let (full, all_full) = full.open::<F>();
        let (lost, all_lost) = lost.open::<L>();
        let (steps, all_steps) = steps.open::<S>();
        let (ends, all_ends) = ends.open::<E>();
        let booth = Booth {
            board,
            accepted,
            full,
            lost,
            steps,
            ends,
            ended: false,
            names: PhantomData,
        };
        (
            booth,
            seated(all_accepted, all_full, all_lost, devices),
            TurnSeat::fresh(all_steps, all_ends),
        )
    }

    /// The next posting of the seat's device is raised, and its answer booked. None, and nothing
    /// is changed, exactly where the device has none left. No memory is taken.
    pub fn post(&mut self, seat: &mut Seat<A, F, L, S, E, N>) -> Option<Answer>
        ensures none { IfNone result ((left_of self.old.board seat.old.device ≡ 0)
            × (self.new ≡ self.old) × (seat.new ≡ seat.old)) }
        ensures some { IfSome result (λ answer. IsPost seat.old.device self.old self.new answer
            × (seat.new ≡ told_to seat.old answer)) }
    {
        let device = seat.device();
        if self.board.left(device) == 0 {
            return None;
        }
        let answer = self.board.post_next(device);
        self.accepted
            .add(&mut seat.accepted, u64::from(is_accepted(answer)));
        self.full.add(&mut seat.full, u64::from(is_full(answer)));
        self.lost.add(&mut seat.lost, u64::from(is_lost(answer)));
        Some(answer)
    }

    /// A turn of the executor: Idle exactly where nothing is left to do and no posting is left;
    /// else Spent exactly where the steps are the script's limit; else a step, which is booked. No
    /// memory is taken.
    pub fn turn(&mut self, seat: &mut TurnSeat<A, F, L, S, E, N>) -> Beat
        ensures turn { IsTurn result self.old self.new seat.old seat.new }
        ensures told { IsTold N.script.limit result seat.old seat.new }
    {
        // The seat's shares are all there are.
        self.steps.audit(&mut seat.steps);
        self.ends.audit(&mut seat.ends);
        if self.board.is_over() {
            self.ends.add(&mut seat.ends, u64::from(!self.ended));
            self.ended = true;
            return Beat::Idle;
        }
        if self.board.executor_steps() >= self.board.limit() {
            return Beat::Spent;
        }
        self.board.step();
        self.steps.add(&mut seat.steps, 1);
        Beat::Stepped
    }

    /// The board, and what the totals say of it.
    pub fn board(&self) -> &Board
        ensures board { result.now ≡ self.now.board }
        ensures program { result.now.program ≡ N.program }
        ensures mode { result.now.mode ≡ N.mode }
        ensures script { result.now.script ≡ N.script }
        ensures open { IsOpen result.now }
        ensures room { HasRoom result.now }
        ensures accepted { self.now.accepted
            ≡ answers_in is_accepted result.now.device.history.marks }
        ensures full { self.now.full ≡ answers_in is_full result.now.device.history.marks }
        ensures lost { self.now.lost ≡ answers_in is_lost result.now.device.history.marks }
        ensures steps { self.now.steps ≡ result.now.device.steps }
        ensures ends { self.now.ends ≤ 1 }
        ensures over { self.now.ends ≡ 1 → IsOver result.now }
        ensures none { self.now.ends ≡ 1 → HasNoneLeft result.now }
    {
        &self.board
    }

    /// Gives the board back. All seats together know the totals. No memory is taken.
    pub fn settle(
        self,
        devices: Vec<Seat<A, F, L, S, E, N>>,
        turns: TurnSeat<A, F, L, S, E, N>,
    ) -> Board
        requires { vec_len devices ≡ 8 }
        ensures program { result.program ≡ N.program }
        ensures mode { result.mode ≡ N.mode }
        ensures script { result.script ≡ N.script }
        ensures open { IsOpen result }
        ensures room { HasRoom result }
        ensures accepted { sum_by (λ (p : Place). p.accepted) devices.items
            ≡ answers_in is_accepted result.device.history.marks }
        ensures full { sum_by (λ (p : Place). p.full) devices.items
            ≡ answers_in is_full result.device.history.marks }
        ensures lost { sum_by (λ (p : Place). p.lost) devices.items
            ≡ answers_in is_lost result.device.history.marks }
        ensures steps { turns.steps ≡ result.device.steps }
        ensures over { turns.ends ≡ 1 → IsOver result }
        ensures none { turns.ends ≡ 1 → HasNoneLeft result }
    {
        let (mut stepped, mut ended) = turns.shares();
        let Some((mut told_accepted, mut told_full, mut told_lost)) = gathered(devices) else {
            unreachable!()
        };
        let Booth {
            board,
            mut accepted,
            mut full,
            mut lost,
            mut steps,
            mut ends,
            ended: _,
            names: _,
        } = self;
        accepted.audit(&mut told_accepted);
        full.audit(&mut told_full);
        lost.audit(&mut told_lost);
        steps.audit(&mut stepped);
        ends.audit(&mut ended);
        board
    }
}

// A booth may go to another thread.
fn may_go<T: Send>(_value: &T) {}

fn booth_may_go<
    A: Ledger + Send,
    F: Ledger + Send,
    L: Ledger + Send,
    S: Ledger + Send,
    E: Ledger + Send,
    N: Names + Send,
>(booth: &Booth<A, F, L, S, E, N>) {
    may_go(booth)
}
