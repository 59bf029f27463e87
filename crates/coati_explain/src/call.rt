//! The call of the program.
ghost use Rattle.std.specs.Prelude.{◌≡◌, ◌≤◌, length};
ghost use Rattle.coati_io.specs.Writing.{output_edge};
ghost use Rattle.coati_top.specs.Call.{input_edge};
ghost use Rattle.coati_explain.specs.Call.{DeliversExplanation, ExplainEnded};

use crate::answer::{Reply, answer_to};
use coati_io::{ReadEnd, Sink, Source, read_all};
use coati_top::{Status, deliver};
use coati_word::limits::INPUT_BYTES;
use std::alloc::Global;

/// Tells what is wrong with an input, in lines and words, or that it is accepted. It returns,
/// whatever its ends do.
pub fn explain<S: Source, K: Sink>(alloc: Global, input: &mut S, output: &mut K) -> Status
    ensures { ExplainEnded result (input_edge S.left S.faults input.old input.new)
        (output_edge K.taken K.faults K.spare output.old output.new) }
{
    match read_all(alloc, input, INPUT_BYTES) {
        Ok(bytes) => answer(alloc, &bytes, output),
        Err(ReadEnd::Fault) => Status::ReadFault,
        Err(ReadEnd::TooLarge) => deliver(output, Status::TooLarge, TOO_LARGE),
        Err(ReadEnd::OutOfMemory) => Status::OutOfMemory,
    }
}

const TOO_LARGE: &[u8] =
    b"the input is longer than 262144 bytes, which are the most that are read (input too large)\n";

/// Answers to all that was read.
fn answer<K: Sink>(alloc: Global, bytes: &[u8], output: &mut K) -> Status
    requires { length bytes.now ≤ 262144 }
    ensures { DeliversExplanation bytes.now result
        (output_edge K.taken K.faults K.spare output.old output.new) }
{
    match answer_to(alloc, bytes) {
        Ok(Reply { status, text }) => deliver(output, status, &text),
        Err(_) => Status::OutOfMemory,
    }
}
