ghost use Rattle.std.specs.Prelude.{◌≡◌, IfOk};
ghost use Rattle.coati_top.specs.TraceRefusal.{line_refusal, trace_refusal};

use coati_word::OutOfMemory;
use std::alloc::Global;
use trace_out::{put, put_number};
use trace_text::TraceFault;

/// The line that says what is wrong with a trace.
pub(crate) fn trace_refusal(alloc: Global, fault: TraceFault) -> Result<Vec<u8>, OutOfMemory>
    ensures { IfOk result (λ text. text.items ≡ trace_refusal fault) }
{
    match fault {
        TraceFault::BadLine(number) => line_refusal(alloc, number, b"bad"),
        TraceFault::Unknown(number) => line_refusal(alloc, number, b"unknown"),
        TraceFault::Order(number) => line_refusal(alloc, number, b"order"),
        TraceFault::TooMany(number) => line_refusal(alloc, number, b"many"),
        TraceFault::NoLimit => { Ok(Vec::from_slice(alloc, b"trace without limit\n")?) }
        TraceFault::OutOfMemory => Err(OutOfMemory),
    }
}

/// The line about the line of this number.
fn line_refusal(alloc: Global, number: u32, reason: &[u8]) -> Result<Vec<u8>, OutOfMemory>
    ensures { IfOk result (λ text. text.items ≡ line_refusal number reason.now) }
{
    let mut out = Vec::new(alloc);
    put_number(&mut out, b"trace line", number)?;
    put(&mut out, b" ")?;
    put(&mut out, reason)?;
    put(&mut out, b"\n")?;
    Ok(out)
}
