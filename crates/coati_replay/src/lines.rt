ghost use Rattle.std.specs.Prelude.{◌≡◌, IfOk, IfSome, length};
ghost use Rattle.serial_log.specs.Legal.{IsLegalMark};
ghost use Rattle.serial_log.specs.Printed.{mark_of};
ghost use Rattle.serial_log.specs.Standing.{after_mark};
ghost use Rattle.coati_replay.specs.Conditions.{terms_of};
ghost use Rattle.coati_replay.specs.Shown.{GoesOnTo, IsProgressOf, shown_by};
ghost use Rattle.coati_replay.specs.Text.{IsLineOf};

use crate::judge::Judge;
use crate::posts::boot;
use crate::progress::Progress;
use coati_word::OutOfMemory;
use serial_log::{Line, Mark, MarkKind};

/// The mark that a line shows.
fn mark_of(line: &Line, progress: &Progress) -> Mark
    ensures { result ≡ mark_of line.now (shown_by progress.now) }
{
    let (at, kind) = match *line {
        Line::Boot { number, at } => (at, MarkKind::Boot(number)),
        Line::Post { at, posted } => (at, MarkKind::Posted(posted)),
        Line::Commit(committed) => (progress.latest, MarkKind::Commit(committed)),
        Line::Abort(aborted) => (progress.latest, MarkKind::Abort(aborted)),
    };
    Mark { at, kind }
}

impl<'a> Judge<'a> {
    /// Goes on by a line, where the mark that it shows is legal.
    pub(crate) fn line(
        &self,
        progress: Progress,
        line: &Line,
    ) -> Result<Option<Progress>, OutOfMemory>
        requires progress { IsProgressOf self.now.checked.now progress }
        requires line { IsLineOf self.now.checked.now (length self.now.readings.now) line.now }
        ensures leads { IfOk result (GoesOnTo
            (IsLegalMark (terms_of self.now.checked.now self.now.mode) self.now.readings.now
            (shown_by progress) (mark_of line.now (shown_by progress)))
            (after_mark self.now.checked.now (shown_by progress)
            (mark_of line.now (shown_by progress)))) }
        ensures fits { IfOk result (λ next. IfSome next (IsProgressOf self.now.checked.now)) }
    {
        if !progress.is_timely(&mark_of(line, &progress)) {
            return Ok(None);
        }
        match line {
            Line::Boot { number, at } => Ok(boot(self.checked, progress, *at, *number)),
            Line::Post { at, posted } => self.post(progress, *at, posted),
            Line::Commit(committed) => self.commit(progress, committed),
            Line::Abort(aborted) => {
                if !self.is_legal_abort(&progress, aborted)? {
                    return Ok(None);
                }
                Ok(Some(progress))
            }
        }
    }
}
