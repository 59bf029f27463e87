//! The bound on the steps until the next task ends or nothing is left to do.

ghost use Rattle.std.specs.Prelude.{◌≡◌, ◌≤◌, ◌↔◌};
ghost use Rattle.coati_pace.specs.Acts.{IsIdle};
ghost use Rattle.coati_pace.specs.Effort.{IsEffort, IsShape, bound};
ghost use Rattle.coati_pace.specs.Effort.{cleaning_writes as cleaning_writes_of};
ghost use Rattle.coati_pace.specs.Effort.{event_writes as event_writes_of};
ghost use Rattle.coati_pace.specs.Need.{behind_oldest as behind_oldest_of};
ghost use Rattle.coati_pace.specs.Need.{cleaning_left as cleaning_left_of};
ghost use Rattle.coati_pace.specs.Need.{event_steps as event_steps_of};
ghost use Rattle.coati_pace.specs.Need.{events_before_end as events_before_end_of};
ghost use Rattle.coati_pace.specs.Need.{events_first as events_first_of};
ghost use Rattle.coati_pace.specs.Need.{missing as missing_of};
ghost use Rattle.coati_pace.specs.Need.{need as need_of};
ghost use Rattle.coati_pace.specs.Need.{queue_steps as queue_steps_of};
ghost use Rattle.coati_pace.specs.Need.{seen as seen_of};
ghost use Rattle.coati_pace.specs.Need.{steps_behind_bottom as steps_behind_bottom_of};
ghost use Rattle.coati_pace.specs.Need.{steps_choosing as steps_choosing_of};
ghost use Rattle.coati_pace.specs.Need.{steps_ending as steps_ending_of};
ghost use Rattle.coati_pace.specs.Need.{task_steps as task_steps_of};
ghost use Rattle.coati_pace.specs.Need.{undo_risk as undo_risk_of};
ghost use Rattle.coati_pace.specs.Need.{undo_steps as undo_steps_of};

use crate::{Effort, Place, Shape, Stage};
use coati_word::Mode;

/// So many steps suffice until the next task ends or nothing is left to do, where no posting is
/// raised and no power is cut. Each step that does neither lowers it by one at least.
pub fn need(shape: Shape, mode: Mode, effort: Effort) -> u32
    requires shape { IsShape shape }
    requires effort { IsEffort shape effort }
    ensures value { result ≡ need_of shape mode effort }
    ensures most { result ≤ bound shape }
    ensures idle { (result ≡ 0) ↔ IsIdle effort }
{
    steps_in_all(shape, mode, effort)
}

#[tactic(auto, unfolding(crate::specs::Need::steps_ahead))]
fn steps_in_all(shape: Shape, mode: Mode, effort: Effort) -> u32
    requires shape { IsShape shape }
    requires effort { IsEffort shape effort }
    ensures { result ≡ need_of shape mode effort }
{
    let writes = effort.writes;
    let place = effort.place;
    let held = effort.held;
    match effort.stage {
        Stage::Chooses { cleaning, begun } => {
            let events = events_first(mode, place, held);
            writes + steps_choosing(shape, mode, place, writes, events, cleaning, begun)
        }
        Stage::RunsTask { left } => {
            let events = events_before_end(mode, held);
            writes + (left + 1 + steps_ending(shape, mode, 0, events, false, false))
        }
        Stage::EndsTask { placed, begun } => {
            let events = events_before_end(mode, held);
            writes + steps_ending(shape, mode, writes, events, placed, begun)
        }
        Stage::RunsBottom { left } => {
            writes + (left + 2 + steps_behind_bottom(shape, place, held))
        }
        Stage::EndsBottom { begun } => {
            writes + (missing(begun) + steps_behind_bottom(shape, place, held))
        }
    }
}

/// Where memory alone tells what is next: the events that come first, an undo that they may ask
/// for, and the next task.
#[tactic(auto, unfolding(crate::specs::Need::steps_choosing))]
fn steps_choosing(
    shape: Shape,
    mode: Mode,
    place: Place,
    writes: u32,
    events: u32,
    cleaning: u32,
    begun: bool,
) -> u32
    requires shape { IsShape shape }
    requires events { events ≤ 32 }
    requires cleaning { cleaning ≤ 514 }
    ensures value { result ≡ steps_choosing_of shape mode place writes events cleaning begun }
    ensures most { result ≤ 4000000 }
{
    queue_steps(event_steps(shape, mode), events, seen(writes, begun))
        + undo_risk(shape, place, events)
        + task_steps(shape, place, cleaning_left(shape, writes, events, cleaning))
}

/// Where a task has ended: its place and its marker; with events before these, an undo and the
/// task anew too.
#[tactic(auto, using(crate::proofs::Counts::ending_none, crate::proofs::Counts::ending_more))]
fn steps_ending(
    shape: Shape,
    mode: Mode,
    writes: u32,
    events: u32,
    placed: bool,
    begun: bool,
) -> u32
    requires shape { IsShape shape }
    requires events { events ≤ 32 }
    ensures value { result ≡ steps_ending_of shape mode writes events placed begun }
    ensures most { result ≤ 4000000 }
{
    if events == 0 {
        missing(seen(writes, placed)) + 1
    } else {
        queue_steps(event_steps(shape, mode), events, seen(writes, begun))
            + undo_steps(shape)
            + (cleaning_writes(shape) + shape.attempt + 2)
            + 2
    }
}

/// Where a bottom half has ended: its marker and its writes, the events behind it, the next task.
#[tactic(auto, unfolding(crate::specs::Need::steps_behind_bottom))]
fn steps_behind_bottom(shape: Shape, place: Place, held: u32) -> u32
    requires shape { IsShape shape }
    requires held { held ≤ 32 }
    ensures value { result ≡ steps_behind_bottom_of shape place held }
    ensures most { result ≤ 4000000 }
{
    1 + event_writes(shape)
        + behind_oldest(event_steps(shape, Mode::Split), held)
        + task_steps(shape, place, cleaning_writes(shape))
}

/// A held event, from its second write on.
#[tactic(auto, unfolding(crate::specs::Need::event_steps))]
fn event_steps(shape: Shape, mode: Mode) -> u32
    requires { IsShape shape }
    ensures value { result ≡ event_steps_of shape mode }
    ensures most { result ≤ 100261 }
{
    match mode {
        Mode::Buffi => shape.words + 3,
        Mode::Split => shape.attempt + shape.words + 4,
    }
}

/// The held events behind the oldest one.
#[tactic(auto, using(crate::proofs::Counts::behind_is))]
fn behind_oldest(steps: u32, held: u32) -> u32
    requires steps { steps ≤ 100261 }
    requires held { held ≤ 32 }
    ensures value { result ≡ behind_oldest_of steps held }
    ensures most { result ≤ 3108122 }
{
    held.saturating_sub(1) * (steps + 1)
}

/// All of them, where the oldest may be begun.
#[tactic(auto, using(crate::proofs::Counts::queue_none, crate::proofs::Counts::queue_more))]
fn queue_steps(steps: u32, held: u32, begun: bool) -> u32
    requires steps { steps ≤ 100261 }
    requires held { held ≤ 32 }
    ensures value { result ≡ queue_steps_of steps held begun }
    ensures most { result ≤ 3208384 }
{
    if held == 0 {
        0
    } else {
        behind_oldest(steps, held) + steps + missing(begun)
    }
}

/// The next task: so many writes of cleaning, start and body, its place, its marker.
#[tactic(auto, unfolding(crate::specs::Need::task_steps))]
fn task_steps(shape: Shape, place: Place, cleaning: u32) -> u32
    requires shape { IsShape shape }
    requires cleaning { cleaning ≤ 514 }
    ensures value { result ≡ task_steps_of shape place cleaning }
    ensures most { result ≤ 100517 }
{
    match place {
        Place::Halted => 0,
        Place::Outside => cleaning + shape.attempt + 2,
        Place::Inside => cleaning + shape.attempt + 2,
    }
}

/// The writes of cleaning, where neither a write nor an event comes before them.
#[tactic(auto, using(crate::proofs::Counts::cleaning_stays, crate::proofs::Counts::cleaning_anew))]
fn cleaning_left(shape: Shape, writes: u32, events: u32, cleaning: u32) -> u32
    requires shape { IsShape shape }
    requires cleaning { cleaning ≤ 514 }
    ensures value { result ≡ cleaning_left_of shape writes events cleaning }
    ensures most { result ≤ 514 }
{
    if writes == 0 && events == 0 {
        cleaning
    } else {
        cleaning_writes(shape)
    }
}

/// An event may abort an open transaction.
#[tactic(auto, using(crate::proofs::Counts::risks), unfolding(crate::specs::Need::undo_risk))]
fn undo_risk(shape: Shape, place: Place, events: u32) -> u32
    requires { IsShape shape }
    ensures value { result ≡ undo_risk_of shape place events }
    ensures most { result ≤ 2070 }
{
    match place {
        Place::Halted => 0,
        Place::Outside => 0,
        Place::Inside => if events == 0 { 0 } else { undo_steps(shape) },
    }
}

/// The held events that come before the next task.
#[tactic(auto, unfolding(crate::specs::Need::events_first))]
fn events_first(mode: Mode, place: Place, held: u32) -> u32
    ensures value { result ≡ events_first_of mode place held }
    ensures most { result ≤ held }
{
    match mode {
        Mode::Buffi => held,
        Mode::Split => match place {
            Place::Halted => held,
            Place::Outside => held,
            Place::Inside => 0,
        },
    }
}

/// Those that come before the end of the present one.
#[tactic(auto, unfolding(crate::specs::Need::events_before_end))]
fn events_before_end(mode: Mode, held: u32) -> u32
    ensures value { result ≡ events_before_end_of mode held }
    ensures most { result ≤ held }
{
    match mode {
        Mode::Buffi => held,
        Mode::Split => 0,
    }
}

/// An abort with its undo.
fn undo_steps(shape: Shape) -> u32
    requires { IsShape shape }
    ensures value { result ≡ undo_steps_of shape }
    ensures most { result ≤ 2070 }
{
    8 * shape.words + 22
}

/// The writes of an event's commit, at most.
fn event_writes(shape: Shape) -> u32
    requires { IsShape shape }
    ensures value { result ≡ event_writes_of shape }
    ensures most { result ≤ 258 }
{
    shape.words + 2
}

/// The writes that empty a task's log with its flags, at most.
fn cleaning_writes(shape: Shape) -> u32
    requires { IsShape shape }
    ensures value { result ≡ cleaning_writes_of shape }
    ensures most { result ≤ 514 }
{
    2 * shape.words + 2
}

/// While writes are under way, nothing counts as done.
#[tactic(auto, unfolding(crate::specs::Need::seen))]
fn seen(writes: u32, done: bool) -> bool
    ensures { result ≡ seen_of writes done }
{
    match writes {
        0 => done,
        _ => false,
    }
}

/// One step for what isn't done yet.
#[tactic(auto, unfolding(crate::specs::Need::missing))]
fn missing(done: bool) -> u32
    ensures value { result ≡ missing_of done }
    ensures most { result ≤ 1 }
{
    if done { 0 } else { 1 }
}
