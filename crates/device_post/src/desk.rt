//! The desk: a booth under a lock.

ghost use Rattle.std.specs.Prelude.{◌≡◌, ◌+◌, ◌*◌, ◌≤◌, IfErr, IfNone, IfOk, IfSome, length, sum_by, vec_len};
ghost use Rattle.task_cost.specs.Limits.{handler_bound};
ghost use Rattle.coati_board.specs.Board.{IsOpen, IsOpened, IsOver};
ghost use Rattle.coati_board.specs.Postings.{HasNoneLeft};
ghost use Rattle.booth.specs.Acts.{IsTold, told_to};
ghost use Rattle.booth.specs.Left.{HasRoom};
ghost use Rattle.booth.specs.Views.{Place, answers_in, fresh_places, fresh_turns};
ghost use Rattle.booth.specs.Views.{is_accepted, is_full, is_lost};

use booth::{Beat, Blanks, Booth, Names, Seat, TurnSeat};
use coati_board::Board;
use coati_word::OutOfMemory;
use serial_log::Answer;
use std::alloc::Global;
use std::sync::ledger::{Blank, Ledger};
use std::sync::{Mutex, Wait};

/// A booth that many threads share. Who holds its lock is the device's one processor.
#[derive(Drop)]
pub struct Desk<A: Ledger, F: Ledger, L: Ledger, S: Ledger, E: Ledger, N: Names> {
    booth: Mutex<Booth<A, F, L, S, E, N>>,
}

/// The seats of a desk: those of the eight devices, each at the place of its number, and the
/// executor's.
#[derive(Drop)]
pub struct Seats<A: Ledger, F: Ledger, L: Ledger, S: Ledger, E: Ledger, N: Names> {
    pub devices: Vec<Seat<A, F, L, S, E, N>>,
    pub turns: TurnSeat<A, F, L, S, E, N>,
}

impl<A: Ledger, F: Ledger, L: Ledger, S: Ledger, E: Ledger, N: Names> Desk<A, F, L, S, E, N> {
    /// Opens a desk over a board before its first step. Each of the first three ledgers has eight
    /// parts, the others have one. A refusal hands the board back as it was.
    pub fn open(
        alloc: Global,
        board: Board,
        accepted: Blank,
        full: Blank,
        lost: Blank,
        steps: Blank,
        ends: Blank,
    ) -> Result<(Desk<A, F, L, S, E, N>, Seats<A, F, L, S, E, N>), (Board, OutOfMemory)>
        requires accepted { (accepted.name ≡ A.name) × (accepted.parts ≡ A.parts) }
        requires full { (full.name ≡ F.name) × (full.parts ≡ F.parts) }
        requires lost { (lost.name ≡ L.name) × (lost.parts ≡ L.parts) }
        requires steps { (steps.name ≡ S.name) × (steps.parts ≡ S.parts) }
        requires ends { (ends.name ≡ E.name) × (ends.parts ≡ E.parts) }
        requires cut { (accepted.parts ≡ 8) × (full.parts ≡ 8) × (lost.parts ≡ 8)
            × (steps.parts ≡ 1) × (ends.parts ≡ 1) }
        requires opened { IsOpened N.program N.mode N.script board }
        requires room { board.script.limit
            + handler_bound board.program * length board.script.postings ≤ board.device.spare }
        ensures refused { IfErr result (λ e. e.0 ≡ board) }
        ensures devices { IfOk result (λ r. r.1.devices.items ≡ fresh_places 8) }
        ensures turns { IfOk result (λ r. r.1.turns ≡ fresh_turns) }
    {
        let Ok(devices) = Vec::with_capacity(alloc, 8) else {
            return Err((board, OutOfMemory));
        };
        let blanks = Blanks {
            accepted,
            full,
            lost,
            steps,
            ends,
        };
        let (booth, devices, turns) = Booth::open(board, blanks, devices);
        let desk = Desk {
            booth: Mutex::new(booth),
        };
        Ok((desk, Seats { devices, turns }))
    }

    /// The next posting of the seat's device is raised, once the lock is free; None where it has
    /// none left. No memory is taken.
    pub fn post<R: Wait>(&self, rt: &R, seat: &mut Seat<A, F, L, S, E, N>) -> Option<Answer>
        ensures none { IfNone result (seat.new ≡ seat.old) }
        ensures some { IfSome result (λ answer. seat.new ≡ told_to seat.old answer) }
    {
        self.booth.lock(rt).post(seat)
    }

    /// One turn of the executor, once the lock is free. No memory is taken.
    pub fn turn<R: Wait>(&self, rt: &R, seat: &mut TurnSeat<A, F, L, S, E, N>) -> Beat
        ensures { IsTold N.script.limit result seat.old seat.new }
    {
        self.booth.lock(rt).turn(seat)
    }

    /// Gives the board back: what all seats were told is what its history has. No memory is taken.
    pub fn close(self, seats: Seats<A, F, L, S, E, N>) -> Board
        requires { vec_len seats.devices ≡ 8 }
        ensures program { result.program ≡ N.program }
        ensures mode { result.mode ≡ N.mode }
        ensures script { result.script ≡ N.script }
        ensures open { IsOpen result }
        ensures room { HasRoom result }
        ensures accepted { sum_by (λ (p : Place). p.accepted) seats.devices.items
            ≡ answers_in is_accepted result.device.history.marks }
        ensures full { sum_by (λ (p : Place). p.full) seats.devices.items
            ≡ answers_in is_full result.device.history.marks }
        ensures lost { sum_by (λ (p : Place). p.lost) seats.devices.items
            ≡ answers_in is_lost result.device.history.marks }
        ensures steps { seats.turns.steps ≡ result.device.steps }
        ensures over { seats.turns.ends ≡ 1 → IsOver result }
        ensures none { seats.turns.ends ≡ 1 → HasNoneLeft result }
    {
        let Desk { booth } = self;
        let Seats { devices, turns } = seats;
        booth.into_inner().settle(devices, turns)
    }
}
