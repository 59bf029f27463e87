ghost use Rattle.std.specs.Prelude.{◌≡◌, ◌++◌, ◌<◌, OnOk, replicate};
ghost use Rattle.coati_explain.specs.Shown.{around, caret_line, is_printable, quoted, shown, shown_byte, shown_line};

use coati_top::put;
use coati_word::OutOfMemory;

/// Whether the byte is a blank or a printable sign of ASCII.
pub(crate) fn is_printable(byte: u8) -> bool
    ensures { result ≡ is_printable byte }
{
    (b' '..=b'~').contains(&byte)
}

/// What stands for the byte where it is shown.
fn shown_byte(byte: u8) -> u8
    ensures { result ≡ shown_byte byte }
{
    match byte {
        b'\t' => b' ',
        _ if is_printable(byte) => byte,
        _ => b'?',
    }
}

/// Appends bytes of an input as they are shown.
fn put_shown(out: &mut Vec<u8>, bytes: &[u8]) -> Result<(), OutOfMemory>
    ensures { OnOk result (out.new.items ≡ out.old.items ++ shown bytes.now) }
{
    for byte in bytes {
        out.push(shown_byte(*byte))?;
    }
    Ok(())
}

/// Appends a line, a little to the right.
pub(crate) fn put_shown_line(out: &mut Vec<u8>, line: &[u8]) -> Result<(), OutOfMemory>
    ensures { OnOk result (out.new.items ≡ out.old.items ++ shown_line line.now) }
{
    put(out, b"    ")?;
    put_shown(out, line)?;
    put(out, b"\n")
}

/// Appends a caret below a column of the line above.
pub(crate) fn put_caret_line(out: &mut Vec<u8>, column: u32) -> Result<(), OutOfMemory>
    requires { 0 < column }
    ensures { OnOk result (out.new.items ≡ out.old.items ++ caret_line column) }
{
    put(out, b"    ")?;
    put_blanks(out, column - 1)?;
    put(out, b"^\n")
}

/// Appends so many blanks.
fn put_blanks(out: &mut Vec<u8>, count: u32) -> Result<(), OutOfMemory>
    ensures { OnOk result (out.new.items ≡ out.old.items ++ replicate count 32) }
{
    for _ in 0..count {
        out.push(b' ')?;
    }
    Ok(())
}

/// Appends a word of the input.
pub(crate) fn put_quoted(out: &mut Vec<u8>, word: &[u8]) -> Result<(), OutOfMemory>
    ensures { OnOk result (out.new.items ≡ out.old.items ++ quoted word.now) }
{
    put(out, b"`")?;
    put_shown(out, word)?;
    put(out, b"`")
}

/// Appends a word of the input between two texts.
pub(crate) fn put_around(
    out: &mut Vec<u8>,
    front: &[u8],
    word: &[u8],
    back: &[u8],
) -> Result<(), OutOfMemory>
    ensures { OnOk result (out.new.items ≡ out.old.items ++ around front.now word.now back.now) }
{
    put(out, front)?;
    put_quoted(out, word)?;
    put(out, back)
}
