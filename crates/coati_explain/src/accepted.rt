//! What is told of an accepted source, and of the trace behind it.
ghost use Rattle.std.specs.Prelude.{◌≡◌, ◌++◌, ◌≤◌, OnOk, length};
ghost use Rattle.task_cost.specs.Limits.{bounds_of};
ghost use Rattle.coati_explain.specs.Accepted.{accepted_text, counts_text, numbered, script_text};

use coati_top::{put, put_number};
use coati_word::OutOfMemory;
use coati_word::limits::{POSTINGS, POWER_PERIODS};
use serial_log::Script;
use task_check::Checked;
use task_cost::bounds;

/// Appends the bound of a power period, in words.
pub(crate) fn put_accepted(out: &mut Vec<u8>, checked: &Checked) -> Result<(), OutOfMemory>
    ensures { OnOk result (out.new.items ≡ out.old.items ++ accepted_text checked.now) }
{
    put_numbered(
        out,
        b"the source is accepted: a power period of",
        bounds(checked).b,
        b" machine steps suffices\n",
    )
}

/// Appends what an accepted trace asks for.
pub(crate) fn put_script(out: &mut Vec<u8>, script: &Script) -> Result<(), OutOfMemory>
    requires power { length script.now.power ≤ POWER_PERIODS }
    requires postings { length script.now.postings ≤ POSTINGS }
    ensures { OnOk result (out.new.items ≡ out.old.items ++ script_text script.now) }
{
    let periods = script.power.as_slice().len() as u32;
    let postings = script.postings.as_slice().len() as u32;
    put_counts(out, script.limit, periods, postings)
}

/// Appends what a trace of these counts asks for.
fn put_counts(out: &mut Vec<u8>, limit: u32, periods: u32, postings: u32) -> Result<(), OutOfMemory>
    ensures { OnOk result (out.new.items ≡ out.old.items ++ counts_text limit periods postings) }
{
    put_numbered(out, b"the trace is accepted:", limit, b" steps at most,")?;
    put_numbered(out, b"", periods, b" power periods,")?;
    put_numbered(out, b"", postings, b" postings\n")
}

/// Appends a number between two texts.
fn put_numbered(
    out: &mut Vec<u8>,
    front: &[u8],
    number: u32,
    back: &[u8],
) -> Result<(), OutOfMemory>
    ensures { OnOk result (out.new.items ≡ out.old.items ++ numbered front.now number back.now) }
{
    put_number(out, front, number)?;
    put(out, back)
}
