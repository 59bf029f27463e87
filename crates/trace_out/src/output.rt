//! Texts that grow.

ghost use Rattle.std.specs.Prelude.{◌≡◌, ◌++◌, OnOk};
ghost use Rattle.trace_out.specs.Lines.{number_line, word_and_number};

use coati_text::put_decimal;
use coati_word::OutOfMemory;

/// Appends bytes.
pub fn put(out: &mut Vec<u8>, bytes: &[u8]) -> Result<(), OutOfMemory>
    ensures { OnOk result (out.new.items ≡ out.old.items ++ bytes.now) }
{
    Ok(out.extend_from_slice(bytes)?)
}

/// Appends a word and the number behind it.
pub fn put_number(out: &mut Vec<u8>, word: &[u8], number: u32) -> Result<(), OutOfMemory>
    ensures { OnOk result (out.new.items ≡ out.old.items ++ word_and_number word.now number) }
{
    put(out, word)?;
    put(out, b" ")?;
    put_decimal(out, number)
}

/// Appends a line of a word and a number.
pub fn put_number_line(out: &mut Vec<u8>, word: &[u8], number: u32) -> Result<(), OutOfMemory>
    ensures { OnOk result (out.new.items ≡ out.old.items ++ number_line word.now number) }
{
    put_number(out, word, number)?;
    put(out, b"\n")
}
