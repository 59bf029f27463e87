ghost use Rattle.std.specs.Prelude.{◌↔◌, All, IsTrue, length};
ghost use Rattle.coati_replay.specs.Text.{IsLineOf, IsTextOf, IsUnitOf};

use serial_log::{Line, Printed, Unit};
use task_check::Checked;

/// Texts have fewer lines.
const LINES: usize = 0x8000_0000;

/// Whether a printed text names parts of this program alone, and has a value for each of its
/// words.
pub fn is_text_of(checked: &Checked, printed: &Printed) -> bool
    ensures { IsTrue result ↔ IsTextOf checked.now printed.now }
{
    let lines = printed.lines.as_slice();
    lines.len() < LINES
        && printed.values.len() == usize::from(checked.words())
        && are_lines_of(checked, printed.readings.len(), lines)
}

fn are_lines_of(checked: &Checked, readings: usize, lines: &[Line]) -> bool
    ensures { IsTrue result ↔ All (IsLineOf checked.now readings) lines.now }
{
    for line in lines {
        if !is_line_of(checked, readings, line) {
            return false;
        }
    }
    true
}

/// Whether the program has what a line names, and a record's readings are among so many.
fn is_line_of(checked: &Checked, readings: usize, line: &Line) -> bool
    ensures { IsTrue result ↔ IsLineOf checked.now readings line.now }
{
    match line {
        Line::Boot { .. } => true,
        Line::Post { posted, .. } => posted.event < checked.events(),
        Line::Commit(committed) => {
            let end = u64::from(committed.reads_from) + u64::from(committed.reads_len);
            is_unit_of(checked, committed.unit) && end <= readings as u64
        }
        Line::Abort(aborted) => is_unit_of(checked, aborted.unit),
    }
}

/// Whether the program has a unit.
fn is_unit_of(checked: &Checked, unit: Unit) -> bool
    ensures { IsTrue result ↔ IsUnitOf checked.now unit }
{
    match unit {
        Unit::Task(task) => task < checked.tasks(),
        Unit::Transaction(tx) => tx < checked.transactions(),
        Unit::Event(event) => event < checked.events(),
    }
}
