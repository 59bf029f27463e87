//! Words and the numbers behind them, on their way into a sink.

ghost use Rattle.coati_io.specs.Sending.{Puts};
ghost use Rattle.trace_out.specs.Lines.{number_line, word_and_number};

use coati_io::{Pieces, Sink};

/// Puts a word and the number behind it.
pub(crate) fn put_number<K: Sink>(out: &mut Pieces<K>, word: &[u8], number: u32)
    ensures { Puts K.taken K.faults K.spare out.old out.new (word_and_number word.now number) }
{
    out.put(word);
    out.put(b" ");
    out.put_decimal(number);
}

/// Puts a line of a word and a number.
pub(crate) fn put_number_line<K: Sink>(out: &mut Pieces<K>, word: &[u8], number: u32)
    ensures { Puts K.taken K.faults K.spare out.old out.new (number_line word.now number) }
{
    put_number(out, word, number);
    out.put(b"\n");
}
