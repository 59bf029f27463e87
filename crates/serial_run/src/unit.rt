ghost use Rattle.std.specs.Prelude.{◌≡◌, ◌∷◌, IfOk, OnOk};
ghost use Rattle.task_syntax.specs.Units.{is_inside, place_after};
ghost use Rattle.serial_run.specs.Outcomes.{ending_at};
ghost use Rattle.serial_run.specs.Runs.{IsRunOf, moment_of};
ghost use Rattle.serial_run.specs.Units.{Finds};

use crate::body::run_task;
use crate::run::Run;
use coati_word::limits::HALT;
use coati_word::{Ending, OutOfMemory};
use std::alloc::Global;
use task_check::Checked;

/// Runs so many tasks of a unit, the first being `task`, each on what those before it left. The
/// answer is where the last of them leads, or none where the unit ends before.
pub(crate) fn run_tasks(
    alloc: Global,
    checked: &Checked,
    run: &mut Run,
    task: u16,
    count: u32,
) -> Result<Option<u16>, OutOfMemory>
    requires run { IsRunOf checked.now run.old }
    ensures found { IfOk result (λ place.
        Finds checked.now task (moment_of run.old) count (moment_of run.new) place) }
    ensures still { OnOk result (IsRunOf checked.now run.new) }
{
    if count == 0 {
        return Ok(None);
    }
    let mut place = place_after(run_task(alloc, checked, run, task)?);
    for done in 1..count {
        if !is_inside(checked, task, place) {
            return Ok(None);
        }
        place = place_after(run_task(alloc, checked, run, place)?);
    }
    Ok(Some(place))
}

/// Where an ending leads.
pub(crate) fn place_after(ending: Ending) -> u16
    ensures { result ≡ place_after ending }
{
    match ending {
        Ending::Next(task) => task,
        Ending::Halt | Ending::Done | Ending::Given(_) => HALT,
    }
}

/// Whether a place is in the transaction of a task.
pub(crate) fn is_inside(checked: &Checked, task: u16, place: u16) -> bool
    ensures { result ≡ is_inside checked.now task place }
{
    match checked.tx_of_task(task) {
        None => false,
        Some(tx) => checked.tx_of_task(place) == Some(tx),
    }
}

/// How a unit ends that leads to a place.
pub(crate) fn ending_at(place: u16) -> Ending
    ensures { result ≡ ending_at place }
{
    if place == HALT {
        Ending::Halt
    } else {
        Ending::Next(place)
    }
}
