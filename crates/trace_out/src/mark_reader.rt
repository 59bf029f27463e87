//! The lines that show marks.

ghost use Rattle.std.specs.Prelude.{◌≡◌, ◌+◌, ◌<◌, ◌≤◌, ◌^◌, IfOk, IfSome, length};
ghost use Rattle.std.specs.Option.{option_map};
ghost use Rattle.trace_out.specs.LineReading.{abort_in, answer_in, boot_in, commit_in, mark_in, plain_in, post_in, raised_at};

use crate::front::{alone, behind, last_number, number_at};
use crate::lookups::{event_at, word_at};
use crate::raised::Raised;
use crate::readings::readings_in;
use crate::shown::Shown;
use crate::units::{posting_at, record_at, tasks_at, unit_at};
use coati_word::OutOfMemory;
use coati_word::limits::DEVICES;
use serial_log::{AbortOf, Answer, Line, Posted, Record, Unit};
use sqlite_items::Items;
use std::alloc::Global;
use task_check::Checked;

/// What a line says that shows a mark, where `from` readings stand before it; none where it has no
/// such form.
#[tactic(auto, unfolding(crate::specs::LineReading::mark_in))]
pub(crate) fn mark_in(
    alloc: Global,
    checked: &Checked,
    from: u32,
    line: &[u8],
) -> Result<Option<Shown>, OutOfMemory>
    requires { from + length line.now < 2 ^ 32 }
    ensures mark { IfOk result (λ found. found ≡ mark_in checked.now from line.now) }
    ensures few { IfOk result (λ found. IfSome found (λ shown. length shown.readings
        ≤ length line.now)) }
{
    if let Some(text) = behind(line, b"commit ") {
        return commit_in(alloc, checked, from, text);
    }
    match plain_in(checked, line) {
        Some(line) => Ok(Some(Shown {
            line,
            readings: Items::new(alloc),
        })),
        None => Ok(None),
    }
}

/// A commit with its readings.
#[tactic(auto, unfolding(crate::specs::LineReading::commit_in))]
fn commit_in(
    alloc: Global,
    checked: &Checked,
    from: u32,
    text: &[u8],
) -> Result<Option<Shown>, OutOfMemory>
    requires { from + length text.now < 2 ^ 32 }
    ensures commit { IfOk result (λ found. found ≡ commit_in checked.now from text.now) }
    ensures few { IfOk result (λ found. IfSome found (λ shown. length shown.readings
        ≤ length text.now)) }
{
    let Some((committed, text)) = record_at(checked, from, text) else {
        return Ok(None);
    };
    match readings_in(alloc, checked, text)? {
        Some(readings) => {
            let reads_len = readings.len() as u32;
            Ok(Some(Shown {
                line: Line::Commit(Record {
                    reads_len,
                    ..committed
                }),
                readings,
            }))
        }
        None => Ok(None),
    }
}

/// A boot, a posting or an abort.
#[tactic(auto, unfolding(crate::specs::LineReading::plain_in))]
fn plain_in(checked: &Checked, line: &[u8]) -> Option<Line>
    ensures { result ≡ plain_in checked.now line.now }
{
    if let Some(text) = behind(line, b"boot ") {
        return boot_in(text);
    }
    if let Some(text) = behind(line, b"post ") {
        return post_in(checked, text);
    }
    abort_in(checked, behind(line, b"abort ")?)
}

#[tactic(auto, unfolding(crate::specs::LineReading::boot_in))]
fn boot_in(text: &[u8]) -> Option<Line>
    ensures { result ≡ boot_in text.now }
{
    let (number, text) = number_at(u32::MAX, text)?;
    let at = last_number(u32::MAX, behind(text, b" at ")?)?;
    Some(Line::Boot { number, at })
}

#[tactic(auto, unfolding(crate::specs::LineReading::post_in))]
fn post_in(checked: &Checked, text: &[u8]) -> Option<Line>
    ensures { result ≡ post_in checked.now text.now }
{
    let (raised, text) = raised_at(checked, text)?;
    let (from, text) = number_at(u32::MAX, behind(text, b" from ")?)?;
    let (at, text) = number_at(u32::MAX, behind(text, b" at ")?)?;
    let answer = answer_in(text)?;
    Some(Line::Post {
        at,
        posted: Posted {
            device: raised.device,
            index: raised.index,
            event: raised.event,
            argument: raised.argument,
            from,
            answer,
        },
    })
}

/// What a device raised.
#[tactic(auto, unfolding(crate::specs::LineReading::raised_at))]
fn raised_at<'a>(checked: &Checked, text: &'a [u8]) -> Option<(Raised, &'a [u8])>
    ensures { option_map (λ found. (found.0, found.1.now)) result
        ≡ raised_at checked.now text.now }
{
    let (device, text) = number_at(u32::from(DEVICES) - 1, text)?;
    let (index, text) = number_at(u32::MAX, behind(text, b".")?)?;
    let (event, text) = event_at(checked, behind(text, b" ")?)?;
    let (argument, text) = number_at(u32::from(u16::MAX), behind(text, b" ")?)?;
    let raised = Raised {
        device: device as u8,
        index,
        event,
        argument: argument as u16,
    };
    Some((raised, text))
}

#[tactic(auto, unfolding(crate::specs::LineReading::answer_in))]
fn answer_in(text: &[u8]) -> Option<Answer>
    ensures { result ≡ answer_in text.now }
{
    if text == b" full".as_slice() {
        return Some(Answer::Full);
    }
    if let Some(number) = behind(text, b" accepted ") {
        return last_number(u32::MAX, number).map(Answer::Accepted);
    }
    last_number(u32::MAX, behind(text, b" lost ")?).map(Answer::Lost)
}

#[tactic(auto, unfolding(crate::specs::LineReading::abort_in))]
fn abort_in(checked: &Checked, text: &[u8]) -> Option<Line>
    ensures { result ≡ abort_in checked.now text.now }
{
    let (unit, text) = unit_at(checked, text)?;
    if let Unit::Event(_) = unit {
        return None;
    }
    let (tasks, text) = tasks_at(text)?;
    let (posting, text) = posting_at(text)?;
    let (word, text) = word_at(checked, behind(text, b" word ")?)?;
    let aborted = AbortOf {
        unit,
        tasks,
        posting,
        word,
    };
    alone(Line::Abort(aborted), text)
}
