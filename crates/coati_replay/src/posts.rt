ghost use Rattle.std.specs.Prelude.{◌≡◌, ◌<◌, ◌↔◌, IfOk, IfSome, IsTrue, OnOk, length};
ghost use Rattle.serial_log.specs.Boots.{IsBootLegal};
ghost use Rattle.serial_log.specs.declared.mark.MarkKind.TheVariants as kind;
ghost use Rattle.serial_log.specs.Postings.{IsHandled, IsLegalAnswer, IsLegalPost};
ghost use Rattle.serial_log.specs.Printed.{mark_at};
ghost use Rattle.serial_log.specs.Standing.{after_mark};
ghost use Rattle.coati_replay.specs.Conditions.{terms_of};
ghost use Rattle.coati_replay.specs.Shown.{GoesOnTo, IsProgressOf, shown_by};

use crate::judge::Judge;
use crate::progress::Progress;
use coati_word::OutOfMemory;
use serial_log::{Answer, Held, Posted};
use task_check::Checked;

/// Goes on by a boot, where it is legal.
pub(crate) fn boot(checked: &Checked, progress: Progress, at: u32, number: u32) -> Option<Progress>
    requires { IsProgressOf checked.now progress }
    ensures leads { GoesOnTo (IsBootLegal (shown_by progress) at number)
        (after_mark checked.now (shown_by progress) (mark_at at (kind.Boot number))) result }
    ensures fits { IfSome result (IsProgressOf checked.now) }
{
    if u64::from(number) != u64::from(progress.boots) + 1 || at <= progress.last_boot {
        return None;
    }
    Some(Progress {
        boots: number,
        last_boot: at,
        lost: None,
        latest: at,
        ..progress
    })
}

impl<'a> Judge<'a> {
    /// Goes on by a posting, where it is legal.
    pub(crate) fn post(
        &self,
        progress: Progress,
        at: u32,
        posted: &Posted,
    ) -> Result<Option<Progress>, OutOfMemory>
        requires progress { IsProgressOf self.now.checked.now progress }
        requires event { posted.now.event < length self.now.checked.now.events }
        ensures leads { IfOk result (GoesOnTo
            (IsLegalPost (terms_of self.now.checked.now self.now.mode) (shown_by progress) at
            posted.now) (after_mark self.now.checked.now (shown_by progress)
            (mark_at at (kind.Posted posted.now)))) }
        ensures fits { IfOk result (λ next. IfSome next (IsProgressOf self.now.checked.now)) }
    {
        if !self.is_legal_post(&progress, at, posted) {
            return Ok(None);
        }
        let mut progress = progress;
        self.take(&mut progress, at, posted)?;
        Ok(Some(progress))
    }

    /// Whether a posting is legal.
    fn is_legal_post(&self, progress: &Progress, at: u32, posted: &Posted) -> bool
        requires { length progress.now.raised ≡ 256 }
        ensures { IsTrue result ↔ IsLegalPost (terms_of self.now.checked.now self.now.mode)
            (shown_by progress.now) at posted.now }
    {
        let before = progress.raised[usize::from(posted.device)];
        u64::from(posted.index) == u64::from(before) + 1
            && progress.latest <= posted.from
            && self.is_legal_answer(progress, at, posted.from, &posted.answer)
    }

    /// Whether an answer is legal.
    fn is_legal_answer(&self, progress: &Progress, at: u32, from: u32, answer: &Answer) -> bool
        ensures { IsTrue result ↔ IsLegalAnswer (terms_of self.now.checked.now self.now.mode)
            (shown_by progress.now) at from answer.now }
    {
        match answer {
            Answer::Accepted(number) => {
                self.is_handled(progress, at, from)
                    && u64::from(*number) == u64::from(progress.accepted) + 1
            }
            Answer::Full => {
                progress.rest.len() == usize::from(self.checked.buffer()) && at == from
            }
            Answer::Lost(boot) => {
                self.is_handled(progress, at, from)
                    && u64::from(*boot) == u64::from(progress.boots) + 1
            }
        }
    }

    /// Whether a handler had room, and took no more steps than it may.
    fn is_handled(&self, progress: &Progress, at: u32, from: u32) -> bool
        ensures { IsTrue result ↔ IsHandled (terms_of self.now.checked.now self.now.mode)
            (shown_by progress.now) at from }
    {
        progress.rest.len() < usize::from(self.checked.buffer())
            && from < at
            && u64::from(at) <= u64::from(from) + u64::from(self.handler)
    }

    /// Goes on by a posting that is legal.
    fn take(&self, progress: &mut Progress, at: u32, posted: &Posted) -> Result<(), OutOfMemory>
        requires progress { IsProgressOf self.now.checked.now progress.old }
        requires event { posted.now.event < length self.now.checked.now.events }
        requires legal { IsLegalPost (terms_of self.now.checked.now self.now.mode)
            (shown_by progress.old) at posted.now }
        ensures leads { OnOk result (shown_by progress.new ≡ after_mark self.now.checked.now
            (shown_by progress.old) (mark_at at (kind.Posted posted.now))) }
        ensures fits { OnOk result (IsProgressOf self.now.checked.now progress.new) }
    {
        progress.raised[usize::from(posted.device)] = posted.index;
        progress.latest = at;
        match posted.answer {
            Answer::Accepted(number) => {
                let Posted {
                    event,
                    argument,
                    ..
                } = *posted;
                progress.rest.push(Held {
                    number,
                    event,
                    argument,
                })?;
                progress.accepted = number;
            }
            Answer::Full => {}
            Answer::Lost(boot) => progress.lost = Some(boot),
        }
        Ok(())
    }
}
