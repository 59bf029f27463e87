ghost use Rattle.std.specs.Prelude.{◌≡◌, ◌+◌, ◌<◌, ◌≤◌, ◌^◌, IfOk, IfSome, length};
ghost use Rattle.trace_out.specs.Reading.{behind_line, behind_mark, behind_values, headed, readings_of};

use crate::frame::{bound_in, end_in, held_in, mode_in};
use crate::mark_reader::mark_in;
use crate::readings::values_in;
use coati_word::{Mode, OutOfMemory};
use serial_log::{End, Printed};
use sqlite_items::Items;
use std::alloc::Global;
use task_check::Checked;

/// How far a text was read, with what its lines have said.
#[derive(Drop)]
pub(crate) enum Stage {
    /// No line.
    Nothing,
    /// The first line, which tells the mode.
    Headed(Mode),
    /// The first two lines, and so many marks.
    Marked(Printed),
    /// The end line, and the lines of so many variables.
    Valued(Printed, usize),
    /// All lines.
    Whole(Printed),
}

impl Stage {
    /// The stage behind one more line; none where the line has no form that is allowed there.
    pub(crate) fn behind(
        self,
        alloc: Global,
        checked: &Checked,
        line: &[u8],
    ) -> Result<Option<Stage>, OutOfMemory>
        requires { length (readings_of self) + length line.now < 2 ^ 32 }
        ensures next { IfOk result (λ next. next ≡ behind_line checked.now self line.now) }
        ensures few { IfOk result (λ next. IfSome next (λ next. length (readings_of next)
            ≤ length (readings_of self) + length line.now)) }
    {
        match self {
            Stage::Nothing => Ok(mode_in(line).map(Stage::Headed)),
            Stage::Headed(mode) => match bound_in(line) {
                Some(bound) => Ok(Some(Stage::Marked(headed(alloc, mode, bound)))),
                None => Ok(None),
            },
            Stage::Marked(printed) => behind_mark(alloc, checked, printed, line),
            Stage::Valued(printed, number) => behind_values(alloc, checked, printed, number, line),
            Stage::Whole(_) => Ok(None),
        }
    }
}

/// What the first two lines say.
fn headed(alloc: Global, mode: Mode, bound: u32) -> Printed
    ensures { result ≡ headed mode bound }
{
    Printed {
        mode,
        bound,
        lines: Items::new(alloc),
        readings: Items::new(alloc),
        end: End::Idle,
        values: Items::new(alloc),
        held: 0,
    }
}

/// The stage behind a mark, or behind the end line.
fn behind_mark(
    alloc: Global,
    checked: &Checked,
    mut printed: Printed,
    line: &[u8],
) -> Result<Option<Stage>, OutOfMemory>
    requires { length printed.readings + length line.now < 2 ^ 32 }
    ensures next { IfOk result (λ next. next ≡ behind_mark checked.now printed line.now) }
    ensures few { IfOk result (λ next. IfSome next (λ next. length (readings_of next)
        ≤ length printed.readings + length line.now)) }
{
    if let Some(end) = end_in(line) {
        printed.end = end;
        return Ok(Some(Stage::Valued(printed, 0)));
    }
    let from = printed.readings.len() as u32;
    match mark_in(alloc, checked, from, line)? {
        Some(shown) => {
            printed.lines.push(shown.line)?;
            printed.readings.append(shown.readings)?;
            Ok(Some(Stage::Marked(printed)))
        }
        None => Ok(None),
    }
}

/// The stage behind the line of the variable of this number, or behind the last line.
fn behind_values(
    alloc: Global,
    checked: &Checked,
    mut printed: Printed,
    number: usize,
    line: &[u8],
) -> Result<Option<Stage>, OutOfMemory>
    ensures next { IfOk result (λ next. next
        ≡ behind_values checked.now printed number line.now) }
    ensures few { IfOk result (λ next. IfSome next (λ next. readings_of next
        ≡ printed.readings)) }
{
    match checked.program().vars.as_slice().get(number) {
        Some(var) => match values_in(alloc, var, line)? {
            Some(values) => {
                printed.values.append(values)?;
                Ok(Some(Stage::Valued(printed, number + 1)))
            }
            None => Ok(None),
        },
        None => match held_in(line) {
            Some(held) => {
                printed.held = held;
                Ok(Some(Stage::Whole(printed)))
            }
            None => Ok(None),
        },
    }
}
