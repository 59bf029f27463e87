ghost use Rattle.std.specs.Prelude.{◌≡◌};
ghost use Rattle.task_cost.specs.Limits.{handler_bound};

use coati_word::{Mode, Reading};
use task_check::Checked;

/// What the lines of a text are judged by.
#[derive(Clone, Copy)]
pub(crate) struct Judge<'a> {
    pub(crate) checked: &'a Checked,
    pub(crate) mode: Mode,
    /// How many machine steps a handler makes at most.
    pub(crate) handler: u32,
    /// The readings of all records of the text.
    pub(crate) readings: &'a [Reading],
    ghost handler_is: { handler ≡ handler_bound checked.now },
}
