//! Units in a line, and how many tasks they have or which posting they serve.

ghost use Rattle.std.specs.Prelude.{◌≡◌, ◌≤◌, IfSome, length};
ghost use Rattle.std.specs.Option.{option_map};
ghost use Rattle.trace_out.specs.LineReading.{counted_at, posting_at, record_at, tasks_at, unit_at};

use crate::front::{behind, number_at};
use crate::lookups::{event_at, task_at, transaction_at};
use coati_word::limits::EXECUTOR_STEPS;
use serial_log::{Record, Unit};
use task_check::Checked;

/// The kind and the name of a unit.
#[tactic(auto, unfolding(crate::specs::LineReading::unit_at))]
pub(crate) fn unit_at<'a>(checked: &Checked, text: &'a [u8]) -> Option<(Unit, &'a [u8])>
    ensures { option_map (λ found. (found.0, found.1.now)) result ≡ unit_at checked.now text.now }
{
    if let Some(name) = behind(text, b"task ") {
        let (task, rest) = task_at(checked, name)?;
        return Some((Unit::Task(task), rest));
    }
    if let Some(name) = behind(text, b"transaction ") {
        let (tx, rest) = transaction_at(checked, name)?;
        return Some((Unit::Transaction(tx), rest));
    }
    let (event, rest) = event_at(checked, behind(text, b"event ")?)?;
    Some((Unit::Event(event), rest))
}

/// How many tasks, 1 at least.
#[tactic(auto, unfolding(crate::specs::LineReading::tasks_at))]
pub(crate) fn tasks_at(text: &[u8]) -> Option<(u32, &[u8])>
    ensures { option_map (λ found. (found.0, found.1.now)) result ≡ tasks_at text.now }
{
    let (tasks, rest) = number_at(EXECUTOR_STEPS, behind(text, b" tasks ")?)?;
    if tasks >= 1 {
        Some((tasks, rest))
    } else {
        None
    }
}

/// The number of a posting.
#[tactic(auto, unfolding(crate::specs::LineReading::posting_at))]
pub(crate) fn posting_at(text: &[u8]) -> Option<(u32, &[u8])>
    ensures { option_map (λ found. (found.0, found.1.now)) result ≡ posting_at text.now }
{
    number_at(u32::MAX, behind(text, b" posting ")?)
}

/// A record without its readings, which begin behind `from` others.
#[tactic(auto, unfolding(crate::specs::LineReading::record_at))]
pub(crate) fn record_at<'a>(
    checked: &Checked,
    from: u32,
    text: &'a [u8],
) -> Option<(Record, &'a [u8])>
    ensures { option_map (λ found. (found.0, found.1.now)) result
        ≡ record_at checked.now from text.now }
{
    let (unit, text) = unit_at(checked, text)?;
    let (committed, text) = counted_at(from, unit, text)?;
    let text = behind(text, b" reads")?;
    Some((committed, text))
}

/// The record of a unit, with how many tasks a transaction had or which posting an event served.
#[tactic(auto, unfolding(crate::specs::LineReading::counted_at))]
fn counted_at(from: u32, unit: Unit, text: &[u8]) -> Option<(Record, &[u8])>
    ensures { option_map (λ found. (found.0, found.1.now)) result ≡ counted_at from unit text.now }
{
    let (tasks, posting, rest) = match unit {
        Unit::Task(_) => (1, 0, text),
        Unit::Transaction(_) => {
            let (tasks, rest) = tasks_at(text)?;
            (tasks, 0, rest)
        }
        Unit::Event(_) => {
            let (posting, rest) = posting_at(text)?;
            (0, posting, rest)
        }
    };
    let committed = Record {
        unit,
        tasks,
        posting,
        reads_from: from,
        reads_len: 0,
    };
    Some((committed, rest))
}
