ghost use Rattle.std.specs.Prelude.{◌≡◌, ◌+◌, ◌-◌, ◌^◌, ◌<◌, ◌≤◌, ◌++◌, length};
ghost use Rattle.coati_device.specs.Kept.{with_commit, with_event};

use coati_word::Reading;
use serial_log::{History, Mark, MarkKind, Record, Unit};

/// Adds the commit of a unit of so many tasks, with what those before the last one read, and then
/// the last. No memory is taken.
pub fn commit(
    history: &mut History,
    unit: Unit,
    tasks: u32,
    before: &[Reading],
    last: &[Reading],
    at: u32,
)
    requires mark_room { 0 < history.old.mark_room }
    requires reading_room { length before.now + length last.now ≤ history.old.reading_room }
    requires few { length history.old.readings + length before.now + length last.now < 2 ^ 32 }
    ensures { history.new ≡ with_commit history.old unit tasks (before.now ++ last.now) at }
{
    let record = Record {
        unit,
        tasks,
        posting: 0,
        reads_from: history.recorded(),
        reads_len: before.len() as u32 + last.len() as u32,
    };
    record_all(history, before);
    record_all(history, last);
    history.push(Mark {
        at,
        kind: MarkKind::Commit(record),
    });
}

/// Adds the commit of an event's posting, and what it read. No memory is taken.
pub fn commit_posting(history: &mut History, event: u16, posting: u32, reads: &[Reading], at: u32)
    requires mark_room { 0 < history.old.mark_room }
    requires reading_room { length reads.now ≤ history.old.reading_room }
    requires few { length history.old.readings + length reads.now < 2 ^ 32 }
    ensures { history.new ≡ with_event history.old event posting reads.now at }
{
    let record = Record {
        unit: Unit::Event(event),
        tasks: 0,
        posting,
        reads_from: history.recorded(),
        reads_len: reads.len() as u32,
    };
    record_all(history, reads);
    history.push(Mark {
        at,
        kind: MarkKind::Commit(record),
    });
}

// Adds readings of the record to come. No memory is taken.
fn record_all(history: &mut History, readings: &[Reading])
    requires reading_room { length readings.now ≤ history.old.reading_room }
    requires few { length history.old.readings + length readings.now < 2 ^ 32 }
    ensures marks { history.new.marks ≡ history.old.marks }
    ensures mark_room { history.new.mark_room ≡ history.old.mark_room }
    ensures readings { history.new.readings ≡ history.old.readings ++ readings.now }
    ensures room { history.new.reading_room ≡ history.old.reading_room - length readings.now }
{
    for reading in readings {
        history.record_reading(*reading);
    }
}
