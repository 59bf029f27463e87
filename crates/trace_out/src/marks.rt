//! The lines that show the marks of a history.

ghost use Rattle.std.specs.Prelude.{◌≡◌, flat_map};
ghost use Rattle.std.specs.List.{Any};
ghost use Rattle.coati_io.specs.Sending.{Puts};
ghost use Rattle.trace_out.specs.Lines.{with_end};
ghost use Rattle.trace_out.specs.Marks.{mark_lines, mark_text};
ghost use Rattle.trace_out.specs.Shown.{abort_line, answer_text, boot_line, commit_line, count_text};
ghost use Rattle.trace_out.specs.Shown.{end_line, post_line, raised_text, reading_text, unit_text};

use crate::names::Names;
use crate::numbers::put_number;
use coati_io::{Pieces, Sink};
use coati_word::Reading;
use serial_log::{AbortOf, Answer, End, History, MarkKind, Posted, Record, Unit};

/// Puts a line for each mark of the history that is told.
pub(crate) fn put_marks<K: Sink>(out: &mut Pieces<K>, names: &Names, history: &History)
    ensures { Puts K.taken K.faults K.spare out.old out.new
        (mark_lines names.now.checked.now history.now.readings history.now.marks) }
{
    for mark in history.marks() {
        put_mark(out, names, history, mark.at, &mark.kind);
    }
}

/// Puts the line of a mark.
fn put_mark<K: Sink>(
    out: &mut Pieces<K>,
    names: &Names,
    history: &History,
    at: u32,
    kind: &MarkKind,
)
    requires { Any (λ mark. mark.kind ≡ kind.now) history.now.marks }
    ensures { Puts K.taken K.faults K.spare out.old out.new
        (mark_text names.now.checked.now history.now.readings at kind.now) }
{
    match kind {
        MarkKind::Boot(number) => put_boot(out, at, *number),
        MarkKind::Posted(posted) => put_post(out, names, at, posted),
        MarkKind::Done(_) => {}
        MarkKind::Commit(committed) => {
            put_commit(out, names, committed, history.readings(committed))
        }
        MarkKind::Abort(aborted) => put_abort(out, names, aborted),
        MarkKind::End(end) => put_end(out, *end),
    }
}

fn put_boot<K: Sink>(out: &mut Pieces<K>, at: u32, number: u32)
    ensures { Puts K.taken K.faults K.spare out.old out.new (with_end (boot_line at number)) }
{
    put_number(out, b"boot", number);
    put_number(out, b" at", at);
    out.put(b"\n");
}

fn put_post<K: Sink>(out: &mut Pieces<K>, names: &Names, at: u32, posted: &Posted)
    ensures { Puts K.taken K.faults K.spare out.old out.new
        (with_end (post_line names.now.checked.now at posted.now)) }
{
    put_raised(out, names, posted);
    put_number(out, b" from", posted.from);
    put_number(out, b" at", at);
    put_answer(out, posted.answer);
    out.put(b"\n");
}

/// Puts which device raised a posting, which of its postings it is, and what it posts.
fn put_raised<K: Sink>(out: &mut Pieces<K>, names: &Names, posted: &Posted)
    ensures { Puts K.taken K.faults K.spare out.old out.new
        (raised_text names.now.checked.now posted.now) }
{
    put_number(out, b"post", u32::from(posted.device));
    out.put(b".");
    out.put_decimal(posted.index);
    out.put(b" ");
    names.put_event(out, posted.event);
    put_number(out, b"", u32::from(posted.argument));
}

fn put_answer<K: Sink>(out: &mut Pieces<K>, answer: Answer)
    ensures { Puts K.taken K.faults K.spare out.old out.new (answer_text answer) }
{
    match answer {
        Answer::Accepted(number) => put_number(out, b" accepted", number),
        Answer::Full => out.put(b" full"),
        Answer::Lost(boot) => put_number(out, b" lost", boot),
    }
}

fn put_commit<K: Sink>(out: &mut Pieces<K>, names: &Names, committed: &Record, readings: &[Reading])
    ensures { Puts K.taken K.faults K.spare out.old out.new
        (with_end (commit_line names.now.checked.now committed.now readings.now)) }
{
    out.put(b"commit ");
    put_unit(out, names, committed.unit);
    put_count(out, committed);
    out.put(b" reads");
    put_readings(out, names, readings);
    out.put(b"\n");
}

/// Puts the kind and the name of a unit.
fn put_unit<K: Sink>(out: &mut Pieces<K>, names: &Names, unit: Unit)
    ensures { Puts K.taken K.faults K.spare out.old out.new (unit_text names.now.checked.now unit) }
{
    match unit {
        Unit::Task(task) => {
            out.put(b"task ");
            names.put_task(out, task)
        }
        Unit::Transaction(tx) => {
            out.put(b"transaction ");
            names.put_transaction(out, tx)
        }
        Unit::Event(event) => {
            out.put(b"event ");
            names.put_event(out, event)
        }
    }
}

/// Puts how many tasks a committed transaction had, or which posting an event served.
fn put_count<K: Sink>(out: &mut Pieces<K>, committed: &Record)
    ensures { Puts K.taken K.faults K.spare out.old out.new
        (count_text committed.now committed.now.unit) }
{
    match committed.unit {
        Unit::Task(_) => {}
        Unit::Transaction(_) => put_number(out, b" tasks", committed.tasks),
        Unit::Event(_) => put_number(out, b" posting", committed.posting),
    }
}

/// Puts all that a unit read.
fn put_readings<K: Sink>(out: &mut Pieces<K>, names: &Names, readings: &[Reading])
    ensures { Puts K.taken K.faults K.spare out.old out.new
        (flat_map (reading_text names.now.checked.now) readings.now) }
{
    for reading in readings {
        put_reading(out, names, reading);
    }
}

/// Puts what was read at a variable word.
fn put_reading<K: Sink>(out: &mut Pieces<K>, names: &Names, reading: &Reading)
    ensures { Puts K.taken K.faults K.spare out.old out.new
        (reading_text names.now.checked.now reading.now) }
{
    out.put(b" ");
    names.put_word(out, reading.word);
    out.put(b"=");
    out.put_decimal(u32::from(reading.value));
}

fn put_abort<K: Sink>(out: &mut Pieces<K>, names: &Names, aborted: &AbortOf)
    ensures { Puts K.taken K.faults K.spare out.old out.new
        (with_end (abort_line names.now.checked.now aborted.now)) }
{
    out.put(b"abort ");
    put_unit(out, names, aborted.unit);
    put_number(out, b" tasks", aborted.tasks);
    put_number(out, b" posting", aborted.posting);
    out.put(b" word ");
    names.put_word(out, aborted.word);
    out.put(b"\n");
}

fn put_end<K: Sink>(out: &mut Pieces<K>, end: End)
    ensures { Puts K.taken K.faults K.spare out.old out.new (with_end (end_line end)) }
{
    match end {
        End::Idle => out.put(b"end idle\n"),
        End::Limit => out.put(b"end limit\n"),
    }
}
