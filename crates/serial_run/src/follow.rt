ghost use Rattle.std.specs.Prelude.{◌≡◌, ◌≤◌, ◌↔◌, ◌++◌, IfNone, IfOk, IfSome, IsTrue};
ghost use Rattle.std.specs.Prelude.{drop, length, slice_index};
ghost use Rattle.task_syntax.specs.Names.{tasks, word_count};
ghost use Rattle.task_syntax.specs.Units.{task_effect, whole_effect};
ghost use Rattle.serial_run.specs.Followed.{FollowsTask, FollowsUnit};
ghost use Rattle.serial_run.specs.Rounds.{HasComeRound, IsRoundOn};

use crate::SerialStore;
use crate::unit::{is_inside, place_after};
use coati_word::limits::TASKS;
use coati_word::{OutOfMemory, Reading};
use task_check::Checked;

/// Where tasks of a unit lead that made the first of the readings that were told of them.
#[derive(Debug, Drop)]
pub struct Followed {
    pub store: SerialStore,
    pub place: u16,
    /// How many of the readings they made.
    pub read: usize,
}

/// A place from which on so many tasks made no reading.
#[derive(Clone, Copy)]
struct Round {
    place: u16,
    read: usize,
    tasks: u16,
}

impl Round {
    /// The round with the task at this place, before which so many readings were made. None where
    /// tasks have gone round from this place to itself. A task that makes no reading leads to one
    /// place alone, so such tasks would go on for ever.
    fn on(self, place: u16, read: usize) -> Option<Round>
        ensures round { IfNone result (HasComeRound self place read) }
        ensures on { IfSome result (IsRoundOn self place read) }
    {
        if self.read != read || self.tasks == 0 || self.tasks >= TASKS {
            let tasks = 1;
            return Some(Round { place, read, tasks });
        }
        if self.place == place {
            return None;
        }
        let tasks = self.tasks + 1;
        Some(Round { tasks, ..self })
    }
}

/// Whether readings begin with these.
fn begin_with(reads: &[Reading], first: &[Reading]) -> bool
    ensures { IsTrue result ↔ (reads.now ≡ first.now ++ drop (length first.now) reads.now) }
{
    reads.starts_with(first)
}

/// Runs a task that makes the next of these readings, of which so many are made. None where it
/// makes others.
fn follow_task(
    store: SerialStore,
    checked: &Checked,
    task: u16,
    reads: &[Reading],
    read: usize,
) -> Result<Option<Followed>, OutOfMemory>
    requires words { length store ≡ word_count checked.now.vars }
    requires read { read ≤ length reads.now }
    ensures { IfOk result (FollowsTask store
        (task_effect checked.now task (slice_index store)) reads.now read) }
{
    let (store, outcome) = store.ran(checked, task)?;
    let told = outcome.readings.as_slice();
    if !begin_with(&reads[read..], told) {
        return Ok(None);
    }
    let place = place_after(outcome.ending);
    let read = read + told.len();
    Ok(Some(Followed { store, place, read }))
}

/// Runs so many tasks of a unit, the first being `task`, where they make it whole and read exactly
/// this. None runs behind a task that reads anything else, nor where they would go round for ever.
pub(crate) fn follow_tasks(
    store: SerialStore,
    checked: &Checked,
    task: u16,
    count: u32,
    reads: &[Reading],
) -> Result<Option<Followed>, OutOfMemory>
    requires { length store ≡ word_count checked.now.vars }
    ensures { IfOk result (FollowsUnit store
        (whole_effect checked.now task (slice_index store) count) reads.now) }
{
    if count == 0 {
        return Ok(None);
    }
    let Some(mut followed) = follow_task(store, checked, task, reads, 0)? else {
        return Ok(None);
    };
    let mut round = Round {
        place: followed.place,
        read: followed.read,
        tasks: 0,
    };
    for done in 1..count {
        if !is_inside(checked, task, followed.place) {
            return Ok(None);
        }
        let Some(on) = round.on(followed.place, followed.read) else {
            return Ok(None);
        };
        let Followed { store, place, read } = followed;
        let Some(next) = follow_task(store, checked, place, reads, read)? else {
            return Ok(None);
        };
        followed = next;
        round = on;
    }
    if is_inside(checked, task, followed.place) || followed.read != reads.len() {
        return Ok(None);
    }
    Ok(Some(followed))
}
