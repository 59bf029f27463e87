ghost use Rattle.std.specs.Prelude.{◌≡◌, ◌+◌, ◌<◌, ◌≤◌, ◌↔◌, IfOk, IfSome, IsTrue};
ghost use Rattle.std.specs.Prelude.{length, slice_index};
ghost use Rattle.task_check.specs.Counts.{transactions};
ghost use Rattle.task_syntax.specs.Names.{tasks};
ghost use Rattle.task_syntax.specs.Units.{place_after, task_effect};
ghost use Rattle.serial_log.specs.declared.mark.MarkKind.TheVariants as kind;
ghost use Rattle.serial_log.specs.Postings.{IsDue, IsInOrder};
ghost use Rattle.serial_log.specs.Printed.{mark_at};
ghost use Rattle.serial_log.specs.SerialRun.{IsEventNext, IsLone, IsNext, IsTaskNext};
ghost use Rattle.serial_log.specs.SerialRun.{IsTransactionNext, behind_record, behind_tasks};
ghost use Rattle.serial_log.specs.SerialRun.{behind_unit};
ghost use Rattle.serial_log.specs.Standing.{after_mark};
ghost use Rattle.coati_replay.specs.Kinds.{IsCommitLegal};
ghost use Rattle.coati_replay.specs.Shown.{GoesOnTo, GoesTo, IsProgressOf, IsRunOf};
ghost use Rattle.coati_replay.specs.Shown.{shown_by, stand_of};
ghost use Rattle.coati_replay.specs.Text.{IsUnitOf};

use crate::judge::Judge;
use crate::progress::{Progress, Run};
use coati_word::limits::HALT;
use coati_word::{Ending, OutOfMemory, Reading};
use serial_log::{Held, Record, Unit};
use task_check::Checked;

/// Whether a task is there, and in no transaction.
pub(crate) fn is_lone(checked: &Checked, task: u16) -> bool
    ensures lone { IsTrue result ↔ IsLone checked.now task }
    ensures there { IsTrue result → task < length (tasks checked.now) }
{
    task < checked.tasks() && checked.tx_of_task(task).is_none()
}

/// Where an ending leads.
fn place_after(ending: Ending) -> u16
    ensures { result ≡ place_after ending }
{
    match ending {
        Ending::Next(task) => task,
        Ending::Halt | Ending::Done | Ending::Given(_) => HALT,
    }
}

/// Goes on by the commit of a lone task, where it is the next record.
fn commit_task(
    checked: &Checked,
    run: Run,
    task: u16,
    committed: &Record,
    reads: &[Reading],
) -> Result<Option<Run>, OutOfMemory>
    requires { IsRunOf checked.now run }
    ensures leads { IfOk result (GoesTo
        (IsTaskNext checked.now (stand_of run) task (record {
          committed = committed.now;
          reads = reads.now;
        }))
        (behind_tasks (stand_of run) (task_effect checked.now task (slice_index run.store)))) }
    ensures fits { IfOk result (λ next. IfSome next (IsRunOf checked.now)) }
{
    let Run { store, place } = run;
    if place != task || !is_lone(checked, task) || committed.tasks != 1 || committed.posting != 0 {
        return Ok(None);
    }
    let (store, outcome) = store.run_task(checked, task)?;
    if !outcome.readings.are(reads) {
        return Ok(None);
    }
    let place = place_after(outcome.ending);
    Ok(Some(Run { store, place }))
}

/// Goes on by the commit of a transaction, where it is the next record.
fn commit_transaction(
    checked: &Checked,
    rest: &[Held],
    run: Run,
    tx: u16,
    committed: &Record,
    reads: &[Reading],
) -> Result<Option<Run>, OutOfMemory>
    requires run { IsRunOf checked.now run }
    requires tx { tx < length (transactions checked.now) }
    ensures leads { IfOk result (GoesTo
        (IsTransactionNext checked.now (stand_of run) tx (record {
          committed = committed.now;
          reads = reads.now;
        }))
        (behind_unit checked.now rest.now (stand_of run) committed.now (Unit.Transaction tx))) }
    ensures fits { IfOk result (λ next. IfSome next (IsRunOf checked.now)) }
{
    let Run { store, place } = run;
    if place != checked.first_of_tx(tx) || committed.posting != 0 {
        return Ok(None);
    }
    let Some(followed) = store.follow_tx(checked, tx, committed.tasks, reads)? else {
        return Ok(None);
    };
    Ok(Some(Run {
        store: followed.store,
        place: followed.place,
    }))
}

/// Goes on by the commit of an event, where it is the next record and its posting is due.
fn commit_event(
    checked: &Checked,
    rest: &[Held],
    run: Run,
    event: u16,
    committed: &Record,
    reads: &[Reading],
) -> Result<Option<Run>, OutOfMemory>
    requires run { IsRunOf checked.now run }
    requires event { event < length checked.now.events }
    ensures leads { IfOk result (GoesTo
        (IsEventNext checked.now rest.now (stand_of run) event (record {
          committed = committed.now;
          reads = reads.now;
        }) × IsDue rest.now committed.now.posting)
        (behind_unit checked.now rest.now (stand_of run) committed.now (Unit.Event event))) }
    ensures fits { IfOk result (λ next. IfSome next (IsRunOf checked.now)) }
{
    let Run { store, place } = run;
    let Some(held) = rest.first() else {
        return Ok(None);
    };
    if committed.tasks != 0 || held.number != committed.posting || held.event != event {
        return Ok(None);
    }
    let (store, outcome) = store.run_event(checked, event, held.argument)?;
    if outcome.readings.are(reads) {
        Ok(Some(Run { store, place }))
    } else {
        Ok(None)
    }
}

/// Goes on by a commit, where it is the next record and an event's posting is due.
fn commit_unit(
    checked: &Checked,
    rest: &[Held],
    run: Run,
    committed: &Record,
    reads: &[Reading],
) -> Result<Option<Run>, OutOfMemory>
    requires run { IsRunOf checked.now run }
    requires unit { IsUnitOf checked.now committed.now.unit }
    ensures leads { IfOk result (GoesTo
        (IsNext checked.now rest.now (stand_of run) (record {
          committed = committed.now;
          reads = reads.now;
        }) × IsInOrder rest.now committed.now.posting committed.now.unit)
        (behind_record checked.now rest.now (stand_of run) committed.now)) }
    ensures fits { IfOk result (λ next. IfSome next (IsRunOf checked.now)) }
{
    match committed.unit {
        Unit::Task(task) => commit_task(checked, run, task, committed, reads),
        Unit::Transaction(tx) => commit_transaction(checked, rest, run, tx, committed, reads),
        Unit::Event(event) => commit_event(checked, rest, run, event, committed, reads),
    }
}

impl<'a> Judge<'a> {
    /// Goes on by a commit, where it is legal.
    pub(crate) fn commit(
        &self,
        progress: Progress,
        committed: &Record,
    ) -> Result<Option<Progress>, OutOfMemory>
        requires progress { IsProgressOf self.now.checked.now progress }
        requires unit { IsUnitOf self.now.checked.now committed.now.unit }
        requires reads { committed.now.reads_from + committed.now.reads_len
            ≤ length self.now.readings.now }
        ensures leads { IfOk result (GoesOnTo
            (IsCommitLegal self.now.checked.now self.now.readings.now (shown_by progress)
            committed.now) (after_mark self.now.checked.now (shown_by progress)
            (mark_at progress.latest (kind.Commit committed.now)))) }
        ensures fits { IfOk result (λ next. IfSome next (IsProgressOf self.now.checked.now)) }
    {
        let from = committed.reads_from as usize;
        let reads = &self.readings[from..from + committed.reads_len as usize];
        let mut progress = progress;
        let Progress { run, mut rest, .. } = progress;
        let Some(run) = commit_unit(self.checked, rest.as_slice(), run, committed, reads)? else {
            return Ok(None);
        };
        if let Unit::Event(_) = committed.unit {
            rest.remove(0);
        }
        progress.run = run;
        progress.rest = rest;
        Ok(Some(progress))
    }
}
