//! The summary of a run.

ghost use Rattle.std.specs.Prelude.{◌≡◌, ◌++◌, IfOk, OnOk, length};
ghost use Rattle.coati_board.specs.Board.{end_of};
ghost use Rattle.serial_log.specs.Standing.{rest_of};
ghost use Rattle.trace_out.specs.Lines.{number_line, with_end};
ghost use Rattle.trace_out.specs.Printed.{held_line};
ghost use Rattle.coati_top.specs.Loaded.{count_lines, end_text, load_text, load_word};

use crate::tally::tally_of;
use coati_board::Board;
use coati_word::{Mode, OutOfMemory};
use itoa::Buffer;
use serial_log::{End, Mark, MarkKind};
use std::alloc::Global;
use trace_out::{put, put_number_line};

/// The summary of a run of so many rounds in a mode.
pub(crate) fn load_text(
    alloc: Global,
    mode: Mode,
    rounds: u16,
    run: &Board,
) -> Result<Vec<u8>, OutOfMemory>
    ensures { IfOk result (λ text. text.items ≡ load_text mode rounds run.now) }
{
    let mut out = Vec::new(alloc);
    let marks = run.history().marks();
    put_number_line(&mut out, load_word(mode), u32::from(rounds))?;
    put_counts(&mut out, marks)?;
    put_end(&mut out, end_of(marks))?;
    put_held(&mut out, run)?;
    Ok(out)
}

/// The words before the number of rounds.
fn load_word(mode: Mode) -> &'static [u8]
    ensures { result.now ≡ load_word mode }
{
    match mode {
        Mode::Split => b"load split",
        Mode::Buffi => b"load buffi",
    }
}

/// Appends a line for each kind of marks that is counted.
fn put_counts(out: &mut Vec<u8>, marks: &[Mark]) -> Result<(), OutOfMemory>
    ensures { OnOk result (out.new.items ≡ out.old.items ++ count_lines marks.now) }
{
    let tally = tally_of(marks);
    put_count(out, b"commits", tally.commits)?;
    put_count(out, b"aborts", tally.aborts)?;
    put_count(out, b"boots", tally.boots)?;
    put_count(out, b"accepted", tally.accepted)?;
    put_count(out, b"full", tally.full)?;
    put_count(out, b"lost", tally.lost)
}

/// Appends the line of a count.
fn put_count(out: &mut Vec<u8>, word: &[u8], count: usize) -> Result<(), OutOfMemory>
    ensures { OnOk result (out.new.items ≡ out.old.items ++ number_line word.now count) }
{
    let mut buffer = Buffer::new();
    put(out, word)?;
    put(out, b" ")?;
    put(out, buffer.format(count).as_bytes())?;
    put(out, b"\n")
}

/// How the run ended, where it has.
fn end_of(marks: &[Mark]) -> Option<End>
    ensures { result ≡ end_of marks.now }
{
    for mark in marks {
        if let MarkKind::End(end) = mark.kind {
            return Some(end);
        }
    }
    None
}

/// Appends the line of how the run ended, where it has.
fn put_end(out: &mut Vec<u8>, end: Option<End>) -> Result<(), OutOfMemory>
    ensures { OnOk result (out.new.items ≡ out.old.items ++ end_text end) }
{
    match end {
        Some(End::Idle) => put(out, b"end idle\n"),
        Some(End::Limit) => put(out, b"end limit\n"),
        None => Ok(()),
    }
}

/// Appends the line of how many postings are held, which are the accepted ones that no record of
/// the history serves.
fn put_held(out: &mut Vec<u8>, run: &Board) -> Result<(), OutOfMemory>
    ensures { OnOk result (out.new.items ≡ out.old.items
        ++ with_end (held_line (length (rest_of run.now.program run.now.device.history.marks)))) }
{
    let _history = run.history();
    put_number_line(out, b"held", u32::from(run.held()))
}
