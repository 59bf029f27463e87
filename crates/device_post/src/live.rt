//! A run in threads.

ghost use Rattle.std.specs.Prelude.{◌≡◌, ◌+◌, ◌*◌, ◌≤◌, IfErr, IfOk, None, length, vec_len};
ghost use Rattle.std.specs.Thread.{IsSync};
ghost use Rattle.task_cost.specs.Limits.{handler_bound};
ghost use Rattle.coati_board.specs.Board.{CanBeRun, IsOpen, IsOpened, first_left};
ghost use Rattle.coati_board.specs.Postings.{ArePostingsWhole};
ghost use Rattle.device_post.specs.RunOut.{HasCome, HasRunOut};

use crate::desk::{Desk, Seats};
use crate::finish::finish;
use crate::gate::{Gate, Who};
use booth::{Beat, Names, Seat, TurnSeat};
use coati_board::Board;
use coati_word::OutOfMemory;
use std::alloc::Global;
use std::marker::Brand;
use std::sync::Wait;
use std::sync::ledger::{Blank, Ledger};
use std::thread::{Threads, for_each_mut, join};

// Posts the whole script of a seat's device.
fn post_all<A: Ledger, F: Ledger, L: Ledger, S: Ledger, E: Ledger, N: Names, G: Gate, R: Wait>(
    rt: &R,
    desk: &Desk<A, F, L, S, E, N>,
    seat: &mut Seat<A, F, L, S, E, N>,
    gate: &G,
) {
    let mut turn = 0u32;
    for _ in rt.forever() {
        let answer = desk.post(rt, seat);
        turn = turn.saturating_add(1);
        gate.between(Who::Device(seat.device()), turn);
        if answer.is_none() {
            break;
        }
    }
}

// Makes turns until nothing is left to do or the limit is reached.
fn turn_all<A: Ledger, F: Ledger, L: Ledger, S: Ledger, E: Ledger, N: Names, G: Gate, R: Wait>(
    rt: &R,
    desk: &Desk<A, F, L, S, E, N>,
    seat: &mut TurnSeat<A, F, L, S, E, N>,
    gate: &G,
) {
    let mut turn = 0u32;
    for _ in rt.forever() {
        let beat = desk.turn(rt, seat);
        turn = turn.saturating_add(1);
        gate.between(Who::Executor, turn);
        if beat != Beat::Stepped {
            break;
        }
    }
}

/// The executor makes turns in one thread while each device posts its whole script in another.
/// Behind them what is left is raised, and steps are made to the end. The board isn't closed. No
/// memory is taken, beside what the threads take.
pub fn run_live<
    A: Ledger + Send + Sync,
    F: Ledger + Send + Sync,
    L: Ledger + Send + Sync,
    S: Ledger + Send + Sync,
    E: Ledger + Send + Sync,
    N: Names + Send + Sync,
    G: Gate + Sync,
    R: Threads + Wait + Sync,
>(rt: &R, desk: Desk<A, F, L, S, E, N>, seats: Seats<A, F, L, S, E, N>, gate: &G) -> Board
    requires { vec_len seats.devices ≡ 8 }
    ensures program { result.program ≡ N.program }
    ensures mode { result.mode ≡ N.mode }
    ensures script { result.script ≡ N.script }
    ensures open { IsOpen result }
    ensures come { HasCome result }
    ensures none { first_left result ≡ None }
    ensures whole { ArePostingsWhole result.script.postings result.device.history.marks }
{
    let Seats {
        mut devices,
        mut turns,
    } = seats;
    let shared = &desk;
    let (turns, devices) = join(
        rt,
        move || -> TurnSeat<A, F, L, S, E, N> {
            turn_all(rt, shared, &mut turns, gate);
            turns
        },
        move || -> Vec<Seat<A, F, L, S, E, N>>
            requires { IsSync R.row × IsSync G.row × (vec_len devices ≡ 8) }
            ensures { vec_len result ≡ 8 }
        {
            for_each_mut(
                rt,
                devices.as_mut_slice(),
                8,
                &|_, seat| { post_all(rt, shared, seat, gate) },
            );
            devices
        },
    );
    let mut board = desk.close(Seats { devices, turns });
    finish(&mut board);
    board
}

// A run of a board under the names that the caller picks.
fn live_as<
    A: Ledger + Send + Sync,
    F: Ledger + Send + Sync,
    L: Ledger + Send + Sync,
    S: Ledger + Send + Sync,
    E: Ledger + Send + Sync,
    N: Names + Send + Sync,
    G: Gate + Sync,
    R: Threads + Wait + Sync,
>(
    rt: &R,
    alloc: Global,
    board: Board,
    accepted: Blank,
    full: Blank,
    lost: Blank,
    steps: Blank,
    ends: Blank,
    gate: &G,
) -> Result<Board, (Board, OutOfMemory)>
    requires accepted { (accepted.name ≡ A.name) × (accepted.parts ≡ A.parts) }
    requires full { (full.name ≡ F.name) × (full.parts ≡ F.parts) }
    requires lost { (lost.name ≡ L.name) × (lost.parts ≡ L.parts) }
    requires steps { (steps.name ≡ S.name) × (steps.parts ≡ S.parts) }
    requires ends { (ends.name ≡ E.name) × (ends.parts ≡ E.parts) }
    requires cut { (accepted.parts ≡ 8) × (full.parts ≡ 8) × (lost.parts ≡ 8)
        × (steps.parts ≡ 1) × (ends.parts ≡ 1) }
    requires opened { IsOpened N.program N.mode N.script board }
    requires room { board.script.limit
        + handler_bound board.program * length board.script.postings ≤ board.device.spare }
    ensures refused { IfErr result (λ e. e.0 ≡ board) }
    ensures run { IfOk result (HasRunOut board) }
{
    let (desk, seats) = Desk::<A, F, L, S, E, N>::open(
        alloc, board, accepted, full, lost, steps, ends,
    )?;
    Ok(run_live(rt, desk, seats, gate))
}

/// Runs a board before its first step, the executor and each device in a thread of its own. The
/// board isn't closed. A refusal hands it back as it was.
pub fn live_board<G: Gate + Sync, R: Threads + Wait + Sync>(
    rt: &R,
    alloc: Global,
    board: Board,
    gate: &G,
) -> Result<Board, (Board, OutOfMemory)>
    requires { CanBeRun board }
    ensures refused { IfErr result (λ e. e.0 ≡ board) }
    ensures run { IfOk result (HasRunOut board) }
{
    live_as::<Brand, Brand, Brand, Brand, Brand, Brand, G, R>(
        rt,
        alloc,
        board,
        Blank::new(8),
        Blank::new(8),
        Blank::new(8),
        Blank::new(1),
        Blank::new(1),
        gate,
    )
}
