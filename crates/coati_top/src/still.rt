ghost use Rattle.std.specs.Prelude.{◌≡◌, ◌≤◌, length, map, string_bytes, None, Some};
ghost use Rattle.coati_io.specs.Writing.{output_edge};
ghost use Rattle.coati_top.specs.Call.{input_edge, after_fault, CallEnded, CommandEnded, Delivers, DeliversAnswer, LeavesInput, Tells};
ghost use Rattle.coati_top.specs.Complete.{Completes, IsSteadyInput};
ghost use Rattle.coati_top.specs.Words.{IsServable, command_of};

use crate::answer::{Reply, reply_to};
use crate::laws::spelled_programs_are_well_formed;
use crate::served::Served;
use crate::{Command, Done, Status, command_of};
use coati_board::Board;
use coati_io::{ReadEnd, Sink, Source, read_all, write_all};
use coati_replay::{serial_texts_are_legal, verdicts_are_unique};
use coati_word::limits::INPUT_BYTES;
use std::alloc::Global;
use task_check::laws::refused_is_not_accepted;
use task_lex::each_source_has_one_answer;
use task_parse::{a_list_is_one_program, each_list_has_one_answer};
use trace_out::{PrintEnd, each_text_says_one_thing, print};
use trace_text::each_text_has_one_answer;

/// Does what the words say, from the input to the output. It returns, whatever these do.
pub fn coati_still<S: Source, K: Sink>(
    alloc: Global,
    words: &[String],
    input: &mut S,
    output: &mut K,
) -> Done
    ensures ended { CallEnded (command_of (map string_bytes words.now)) result.status
        (input_edge S.left S.faults input.old input.new)
        (output_edge K.taken K.faults K.spare output.old output.new) result.board }
    ensures unread { LeavesInput (command_of (map string_bytes words.now))
        (input_edge S.left S.faults input.old input.new) }
    ensures complete { Completes (command_of (map string_bytes words.now)) result.status
        (input_edge S.left S.faults input.old input.new)
        (output_edge K.taken K.faults K.spare output.old output.new) }
    ensures steady { S.sound input.old → IsSteadyInput result.status
        (input_edge S.left S.faults input.old input.new) }
{
    each_source_has_one_answer();
    a_list_is_one_program();
    each_list_has_one_answer();
    refused_is_not_accepted();
    each_text_has_one_answer();
    spelled_programs_are_well_formed();
    each_text_says_one_thing();
    verdicts_are_unique();
    serial_texts_are_legal();
    match command_of(words) {
        None => Done {
            status: deliver(output, Status::Usage, USAGE),
            board: None,
        },
        Some(command) => run(alloc, command, input, output),
    }
}

const USAGE: &[u8] =
    b"usage: coati check | dump | run MODE | live MODE | replay MODE | gen N | load MODE N\n";

/// Does what a command says.
fn run<S: Source, K: Sink>(alloc: Global, command: Command, input: &mut S, output: &mut K) -> Done
    requires { IsServable command }
    ensures ended { CommandEnded command result.status
        (input_edge S.left S.faults input.old input.new)
        (output_edge K.taken K.faults K.spare output.old output.new) result.board }
    ensures unread { LeavesInput (Some command)
        (input_edge S.left S.faults input.old input.new) }
    ensures steady { S.sound input.old → IsSteadyInput result.status
        (input_edge S.left S.faults input.old input.new) }
{
    if !command.reads() {
        return answer(alloc, command, &[], output);
    }
    match read_all(alloc, input, INPUT_BYTES) {
        Ok(bytes) => answer(alloc, command, &bytes, output),
        Err(ReadEnd::Fault) => without_board(Status::ReadFault),
        Err(ReadEnd::TooLarge) => {
            without_board(deliver(output, Status::TooLarge, b"input too large\n"))
        }
        Err(ReadEnd::OutOfMemory) => without_board(Status::OutOfMemory),
    }
}

/// Answers to what was read.
fn answer<K: Sink>(alloc: Global, command: Command, bytes: &[u8], output: &mut K) -> Done
    requires small { length bytes.now ≤ 262144 }
    requires servable { IsServable command }
    ensures { DeliversAnswer command bytes.now result.status
        (output_edge K.taken K.faults K.spare output.old output.new) result.board }
{
    match reply_to(alloc, command, bytes) {
        Ok(Reply { status, told }) => tell(alloc, status, told, output),
        Err(_) => without_board(Status::OutOfMemory),
    }
}

/// Writes what a command gives. A run's text is written while it is made.
fn tell<K: Sink>(alloc: Global, status: Status, told: Served, output: &mut K) -> Done
    ensures { Tells status told result.status
        (output_edge K.taken K.faults K.spare output.old output.new) result.board }
{
    match told {
        Served::Text(text) => without_board(deliver(output, status, &text)),
        Served::Run(board) => match print(alloc, &board, output) {
            Ok(()) => with_board(status, board),
            Err(PrintEnd::Fault) => with_board(after_fault(status), board),
            Err(PrintEnd::OutOfMemory) => without_board(Status::OutOfMemory),
        },
        Served::Load(text, board) => with_board(deliver(output, status, &text), board),
    }
}

fn with_board(status: Status, board: Board) -> Done
    ensures status { result.status ≡ status }
    ensures board { result.board ≡ Some board }
{
    Done {
        status,
        board: Some(board),
    }
}

fn without_board(status: Status) -> Done
    ensures status { result.status ≡ status }
    ensures board { result.board ≡ None }
{
    Done {
        status,
        board: None,
    }
}

/// Writes the text that belongs to a status. Where that fails, `Ok` becomes a write fault, and
/// another status stays.
pub fn deliver<K: Sink>(output: &mut K, status: Status, text: &[u8]) -> Status
    ensures { Delivers status result (output_edge K.taken K.faults K.spare output.old output.new)
        text.now }
{
    match write_all(output, text) {
        Ok(()) => status,
        Err(_) => after_fault(status),
    }
}

/// What a status becomes where its text was not written whole.
fn after_fault(status: Status) -> Status
    ensures { result ≡ after_fault status }
{
    match status {
        Status::Ok => Status::WriteFault,
        _ => status,
    }
}
