//! What is told of a fault of the trace.
ghost use Rattle.std.specs.Prelude.{◌≡◌, ◌≢◌, ◌++◌, ◌<◌, ◌≤◌, [], IfOk, OnOk, length};
ghost use Rattle.coati_text.specs.Line.{lines_of};
ghost use Rattle.coati_top.specs.Divided.{second_part};
ghost use Rattle.trace_text.specs.Fields.{is_quiet};
ghost use Rattle.coati_explain.specs.Labels.{trace_label};
ghost use Rattle.coati_explain.specs.Trace.{divider_line, first_said, line_heading, told_line, trace_explanation, trace_message};
ghost use Rattle.coati_explain.specs.Words.{wording};

use crate::asked::asked_of;
use crate::hint::{put_hint, return_hint};
use crate::label::put_trace_label;
use crate::message::Message;
use crate::shown::put_shown_line;
use crate::spot::line_of;
use crate::words::{Said, put_words};
use coati_text::lines;
use coati_top::{put, put_number, second_part, source_part};
use coati_word::OutOfMemory;
use std::alloc::Global;
use trace_text::TraceFault;

/// What explains the fault of an input's trace.
pub(crate) fn trace_text_of(
    alloc: Global,
    input: &[u8],
    fault: TraceFault,
) -> Result<Vec<u8>, OutOfMemory>
    requires small { length input.now ≤ 262144 }
    requires told { told_line (second_part input.now) fault ≤ 262144 }
    ensures text { IfOk result (λ text. text.items ≡ trace_explanation input.now fault) }
    ensures told { OnOk result (fault ≢ TraceFault.OutOfMemory) }
{
    let trace = second_part(input);
    let number = divider_line(input) + told_line(trace, fault);
    let message = trace_message(trace, fault);
    let line = line_of(input, number);
    let mut out = Vec::new(alloc);
    put_heading(&mut out, number, message, fault)?;
    put_shown_line(&mut out, line)?;
    put(&mut out, asked_of(message))?;
    put(&mut out, b"\n")?;
    put_hint(&mut out, return_hint(line))?;
    Ok(out)
}

/// Appends the line that tells where the fault is, and what.
fn put_heading(
    out: &mut Vec<u8>,
    number: u32,
    message: Message,
    fault: TraceFault,
) -> Result<(), OutOfMemory>
    ensures text { OnOk result (out.new.items ≡ out.old.items
        ++ line_heading number (wording message [] []) (trace_label fault)) }
    ensures told { OnOk result (fault ≢ TraceFault.OutOfMemory) }
{
    put_number(out, b"line", number)?;
    put(out, b": ")?;
    put_words(
        out,
        Said {
            message,
            word: &[],
            before: &[],
        },
    )?;
    put(out, b" (")?;
    put_trace_label(out, fault)?;
    put(out, b")\n")
}

/// The line `%%`, which stands before the trace.
fn divider_line(input: &[u8]) -> u32
    requires { length input.now ≤ 262144 }
    ensures number { result ≡ divider_line input.now }
    ensures first { 0 < result }
    ensures few { result ≤ 262145 }
{
    line_count(source_part(input)) + 1
}

/// How many lines the text has.
fn line_count(text: &[u8]) -> u32
    requires { length text.now ≤ 262144 }
    ensures count { result ≡ length (lines_of text.now) }
    ensures few { result ≤ length text.now }
{
    let mut count = 0;
    for _ in lines(text) {
        count += 1;
    }
    count
}

/// Which line of the trace is told, counted from 1; where no line says anything, the one before
/// its first.
fn told_line(trace: &[u8], fault: TraceFault) -> u32
    requires { length trace.now ≤ 262144 }
    ensures { result ≡ told_line trace.now fault }
{
    match fault {
        TraceFault::BadLine(number)
        | TraceFault::Unknown(number)
        | TraceFault::Order(number)
        | TraceFault::TooMany(number) => number,
        TraceFault::NoLimit => first_said(trace),
        TraceFault::OutOfMemory => 0,
    }
}

/// The first line of the trace that says something, counted from 1; 0 where there is none.
fn first_said(trace: &[u8]) -> u32
    requires { length trace.now ≤ 262144 }
    ensures { result ≡ first_said trace.now }
{
    let mut number = 0;
    for line in lines(trace) {
        number += 1;
        if !is_quiet(line) {
            return number;
        }
    }
    0
}

/// Whether the line says nothing.
fn is_quiet(line: &[u8]) -> bool
    ensures { result ≡ is_quiet line.now }
{
    match line {
        [] => true,
        [first, ..] => *first == b'#',
    }
}

fn trace_message(trace: &[u8], fault: TraceFault) -> Message
    requires { length trace.now ≤ 262144 }
    ensures { result ≡ trace_message trace.now fault }
{
    match fault {
        TraceFault::BadLine(_) => Message::BadLine,
        TraceFault::Unknown(_) => Message::UnknownEvent,
        TraceFault::Order(_) => Message::OutOfOrder,
        TraceFault::TooMany(_) => Message::AboveLimit,
        TraceFault::NoLimit if first_said(trace) != 0 => Message::OtherFirst,
        TraceFault::NoLimit | TraceFault::OutOfMemory => Message::NothingSaid,
    }
}
