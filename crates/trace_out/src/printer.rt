ghost use Rattle.std.specs.Prelude.{◌≡◌, ◌+◌, ◌≤◌, length};
ghost use Rattle.coati_io.specs.Sending.{Puts};
ghost use Rattle.coati_io.specs.Writing.{output_edge};
ghost use Rattle.serial_log.specs.SerialRun.{stand_of};
ghost use Rattle.serial_log.specs.Standing.{rest_of};
ghost use Rattle.task_syntax.specs.Names.{count_of, word_count};
ghost use Rattle.trace_out.specs.BoardText.{board_text, value_texts, variable_text, variable_texts};
ghost use Rattle.trace_out.specs.Lines.{with_end};
ghost use Rattle.trace_out.specs.Printed.{held_line, mode_line};
ghost use Rattle.trace_out.specs.Printing.{EndsPrinting};

use crate::marks::put_marks;
use crate::names::Names;
use crate::numbers::{put_number, put_number_line};
use crate::print_end::PrintEnd;
use coati_board::Board;
use coati_io::{Piece, Pieces, Sink};
use coati_word::Mode;
use std::alloc::Global;
use task_cost::bounds;
use task_syntax::Var;

/// Writes the printed text of a run that was closed. All memory for it is taken before the first
/// byte is written, so that no text stops in its middle for want of memory.
pub fn print<K: Sink>(alloc: Global, board: &Board, sink: &mut K) -> Result<(), PrintEnd>
    ensures { EndsPrinting (output_edge K.taken K.faults K.spare sink.old sink.new)
        (board_text board.now) result }
{
    let mut piece = Piece::new(alloc)?;
    let names = Names::new(alloc, board.checked())?;
    let mut out = Pieces::new(sink, &mut piece);
    put_board(&mut out, &names, board);
    match out.finish() {
        Ok(()) => Ok(()),
        Err(_) => Err(PrintEnd::Fault),
    }
}

/// Puts the whole text of a run.
fn put_board<K: Sink>(out: &mut Pieces<K>, names: &Names, board: &Board)
    requires { names.now.checked.now ≡ board.now.program }
    ensures { Puts K.taken K.faults K.spare out.old out.new (board_text board.now) }
{
    out.put(mode_line(board.mode()));
    put_number_line(out, b"bound", bounds(board.checked()).b);
    put_marks(out, names, board.history());
    put_variables(out, board);
    put_held(out, board);
}

fn mode_line(mode: Mode) -> &'static [u8]
    ensures { result.now ≡ with_end (mode_line mode) }
{
    match mode {
        Mode::Split => b"coati split\n",
        Mode::Buffi => b"coati buffi\n",
    }
}

/// Puts a line for each variable, with its committed words, which are those of the serial run.
fn put_variables<K: Sink>(out: &mut Pieces<K>, board: &Board)
    ensures { Puts K.taken K.faults K.spare out.old out.new
        (variable_texts 0 board.now.program.vars (stand_of board.now.program
        board.now.device.history).store) }
{
    let _words = board.checked().words();
    let mut first = 0;
    for var in board.checked().program().vars.as_slice() {
        put_variable(out, board, first, var);
        first += var.length.unwrap_or(1);
    }
}

/// Puts the line of a variable, by its first word.
fn put_variable<K: Sink>(out: &mut Pieces<K>, board: &Board, first: u16, var: &Var)
    requires { first + count_of var.now.length ≤ word_count board.now.program.vars }
    ensures { Puts K.taken K.faults K.spare out.old out.new
        (variable_text first var.now (stand_of board.now.program board.now.device.history).store) }
{
    out.put(b"var ");
    out.put(var.name.text.as_slice());
    put_values(out, board, first, var.length.unwrap_or(1));
    out.put(b"\n");
}

/// Puts the committed values of so many words.
fn put_values<K: Sink>(out: &mut Pieces<K>, board: &Board, first: u16, count: u16)
    requires { first + count ≤ word_count board.now.program.vars }
    ensures { Puts K.taken K.faults K.spare out.old out.new
        (value_texts first count (stand_of board.now.program board.now.device.history).store) }
{
    let _words = board.checked().words();
    for index in 0..count {
        put_number(out, b"", u32::from(board.store_word(first + index)));
    }
}

/// Puts the line of how many postings are held, which are those that no record of the history
/// serves.
fn put_held<K: Sink>(out: &mut Pieces<K>, board: &Board)
    ensures { Puts K.taken K.faults K.spare out.old out.new
        (with_end (held_line (length (rest_of board.now.program board.now.device.history.marks)))) }
{
    let _history = board.history();
    put_number_line(out, b"held", u32::from(board.held()));
}
