ghost use Rattle.std.specs.Prelude.{ℕ, ◌≡◌, ◌+◌, ◌<◌, ◌^◌, ◌↔◌, ◌++◌, IfOk, IsTrue, length, map};
ghost use Rattle.serial_log.specs.Legal.{IsEndLegal};
ghost use Rattle.coati_replay.specs.Shown.{IsProgressOf, shown_by};
ghost use Rattle.coati_replay.specs.Stages.{HasCome, IsStage};
ghost use Rattle.coati_replay.specs.Text.{IsTextOf, TextLine, last_lines, store_lines};
ghost use Rattle.coati_replay.specs.Verdicts.{DiffersAt, IsSerial, IsVerdict};

use crate::judge::Judge;
use crate::progress::Progress;
use crate::stage::Stage;
use crate::values::are_words_from;
use crate::verdict::Verdict;
use coati_word::limits::HALT;
use coati_word::{Mode, OutOfMemory};
use serial_log::{End, Mark, MarkKind, Printed};
use std::alloc::Global;
use task_check::Checked;
use task_cost::bounds;

/// Judges a printed text of a program under a mode: whether each line meets its condition, or
/// which is the first that doesn't. No unit runs further than its line tells.
pub fn replay(
    alloc: Global,
    checked: &Checked,
    mode: Mode,
    printed: &Printed,
) -> Result<Verdict, OutOfMemory>
    requires { IsTextOf checked.now printed.now }
    ensures verdict { IfOk result (IsVerdict checked.now mode printed.now) }
    // A text whose lines all meet their conditions is serial, and one with a first line that
    // doesn't differs there.
    ensures serial { IsSerial checked.now mode printed.now
        → IfOk result (λ verdict. verdict ≡ Verdict.Serial) }
    ensures differs { (number : ℕ) → DiffersAt checked.now mode printed.now number
        → IfOk result (λ verdict. verdict ≡ Verdict.Differs number) }
{
    crate::laws::verdicts_are_unique();
    verdict_of(alloc, checked, mode, printed)
}

/// The verdict, line by line.
fn verdict_of(
    alloc: Global,
    checked: &Checked,
    mode: Mode,
    printed: &Printed,
) -> Result<Verdict, OutOfMemory>
    requires { IsTextOf checked.now printed.now }
    ensures { IfOk result (IsVerdict checked.now mode printed.now) }
{
    let bounds = bounds(checked);
    if !are_same(printed.mode, mode) {
        return Ok(Verdict::Differs(1));
    }
    if printed.bound != bounds.b {
        return Ok(Verdict::Differs(2));
    }
    let judge = Judge {
        checked,
        mode,
        handler: bounds.h,
        readings: printed.readings.as_slice(),
    };
    let progress = Progress::opening(alloc, checked)?;
    match judge.lines(printed, progress)? {
        Stage::Differs(number) => Ok(Verdict::Differs(number)),
        Stage::Goes(progress) => Ok(judge.end(printed, &progress)),
    }
}

impl<'a> Judge<'a> {
    /// Judges the lines that show marks.
    fn lines(&self, printed: &Printed, progress: Progress) -> Result<Stage, OutOfMemory>
        requires text { IsTextOf self.now.checked.now printed.now }
        requires readings { self.now.readings.now ≡ printed.now.readings }
        requires progress { IsProgressOf self.now.checked.now progress }
        requires come { HasCome self.now.checked.now self.now.mode printed.now
            (shown_by progress) 3 (map TextLine.shows printed.now.lines
            ++ last_lines self.now.checked.now printed.now) }
        ensures { IfOk result (IsStage self.now.checked.now self.now.mode printed.now
            (length printed.now.lines + 3) (last_lines self.now.checked.now printed.now)) }
    {
        let mut progress = progress;
        let mut number = 3;
        for line in printed.lines.as_slice() {
            let Some(next) = self.line(progress, line)? else {
                return Ok(Stage::Differs(number));
            };
            progress = next;
            number += 1;
        }
        Ok(Stage::Goes(progress))
    }

    /// Judges the lines from the end line on.
    fn end(&self, printed: &Printed, progress: &Progress) -> Verdict
        requires text { IsTextOf self.now.checked.now printed.now }
        requires readings { self.now.readings.now ≡ printed.now.readings }
        requires progress { IsProgressOf self.now.checked.now progress.now }
        requires come { HasCome self.now.checked.now self.now.mode printed.now
            (shown_by progress.now) (length printed.now.lines + 3)
            (last_lines self.now.checked.now printed.now) }
        ensures { IsVerdict self.now.checked.now self.now.mode printed.now result }
    {
        let number = printed.lines.len() as u32 + 3;
        let mark = Mark {
            at: progress.latest,
            kind: MarkKind::End(printed.end),
        };
        if !progress.is_timely(&mark) || !is_legal_end(progress, printed.end) {
            return Verdict::Differs(number);
        }
        self.store(printed, progress, number + 1)
    }

    /// Judges the lines of the variables, the first of which has this number, and the last line.
    fn store(&self, printed: &Printed, progress: &Progress, number: u32) -> Verdict
        requires text { IsTextOf self.now.checked.now printed.now }
        requires readings { self.now.readings.now ≡ printed.now.readings }
        requires progress { IsProgressOf self.now.checked.now progress.now }
        requires number { number < 2 ^ 31 + 8 }
        requires come { HasCome self.now.checked.now self.now.mode printed.now
            (shown_by progress.now) number
            (store_lines self.now.checked.now printed.now) }
        ensures { IsVerdict self.now.checked.now self.now.mode printed.now result }
    {
        let mut number = number;
        let mut first = 0;
        for var in self.checked.program().vars.as_slice() {
            let end = first + var.length.unwrap_or(1);
            let values = &printed.values.as_slice()[usize::from(first)..usize::from(end)];
            if !are_words_from(&progress.run.store, first, values) {
                return Verdict::Differs(number);
            }
            first = end;
            number += 1;
        }
        if printed.held as usize == progress.rest.len() {
            Verdict::Serial
        } else {
            Verdict::Differs(number)
        }
    }
}

fn are_same(one: Mode, other: Mode) -> bool
    ensures { IsTrue result ↔ (one ≡ other) }
{
    one == other
}

/// Whether an end is legal.
fn is_legal_end(progress: &Progress, end: End) -> bool
    ensures { IsTrue result ↔ IsEndLegal (shown_by progress.now) end }
{
    match end {
        End::Idle => progress.run.place == HALT && progress.rest.is_empty(),
        End::Limit => true,
    }
}
