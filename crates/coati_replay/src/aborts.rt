ghost use Rattle.std.specs.Prelude.{◌≡◌, ◌<◌, ◌↔◌, IfOk, IsTrue, length, slice_index};
ghost use Rattle.task_syntax.specs.Names.{tasks, word_count};
ghost use Rattle.serial_log.specs.Aborts.{IsAbortLegal, IsClashWord, IsUnitAt};
ghost use Rattle.coati_replay.specs.Conditions.{terms_of};
ghost use Rattle.coati_replay.specs.Shown.{IsProgressOf, IsRunOf, shown_by, stand_of};
ghost use Rattle.coati_replay.specs.Text.{IsUnitOf};

use crate::commits::is_lone;
use crate::judge::Judge;
use crate::least::{has, is_least_common};
use crate::progress::{Progress, Run};
use coati_word::{Mode, OutOfMemory};
use serial_log::{AbortOf, Held, Unit};
use task_check::Checked;

/// Whether a unit of tasks begins at a place.
fn is_unit_at(checked: &Checked, place: u16, unit: Unit) -> bool
    requires { IsUnitOf checked.now unit }
    ensures unit { IsTrue result ↔ IsUnitAt checked.now place unit }
    ensures there { IsTrue result → place < length (tasks checked.now) }
{
    match unit {
        Unit::Task(task) => place == task && is_lone(checked, task),
        Unit::Transaction(tx) => checked.first_of_tx(tx) == place,
        Unit::Event(_) => false,
    }
}

impl<'a> Judge<'a> {
    /// Whether an abort is legal.
    pub(crate) fn is_legal_abort(
        &self,
        progress: &Progress,
        aborted: &AbortOf,
    ) -> Result<bool, OutOfMemory>
        requires progress { IsProgressOf self.now.checked.now progress.now }
        requires unit { IsUnitOf self.now.checked.now aborted.now.unit }
        ensures { IfOk result (λ legal. IsTrue legal
            ↔ IsAbortLegal (terms_of self.now.checked.now self.now.mode) (shown_by progress.now)
            aborted.now) }
    {
        let place = progress.run.place;
        if self.mode != Mode::Buffi || !is_unit_at(self.checked, place, aborted.unit) {
            return Ok(false);
        }
        let Some(held) = progress.rest.first() else {
            return Ok(false);
        };
        if held.number != aborted.posting {
            return Ok(false);
        }
        is_clash_word(self.checked, &progress.run, aborted, *held)
    }
}

/// Whether the word is the least on which an event clashes with the first tasks of the unit at the
/// place. The tasks run only where the event writes the word.
fn is_clash_word(
    checked: &Checked,
    run: &Run,
    aborted: &AbortOf,
    held: Held,
) -> Result<bool, OutOfMemory>
    requires run { IsRunOf checked.now run.now }
    requires task { run.now.place < length (tasks checked.now) }
    requires event { held.event < length checked.now.events }
    ensures { IfOk result (λ yes. IsTrue yes ↔ IsClashWord checked.now (stand_of run.now)
        aborted.now.tasks held aborted.now.word) }
{
    task_syntax::laws::written_words_are_told();
    let written = run.store.event_writes(checked, held.event, held.argument)?;
    if !has(written.as_slice(), aborted.word) {
        return Ok(false);
    }
    let shared = run.store.shared_reads(checked, run.place, aborted.tasks)?;
    let Some(shared) = shared else {
        return Ok(false);
    };
    Ok(is_least_common(written.as_slice(), shared.as_slice(), aborted.word))
}
