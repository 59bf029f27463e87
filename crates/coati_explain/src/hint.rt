ghost use Rattle.std.specs.Prelude.{◌≡◌, ◌++◌, OnOk};
ghost use Rattle.std.specs.List.{list_all};
ghost use Rattle.coati_explain.specs.Hints.{are_blanks, behind_hint, divider_hint, ends_with_return, hint_text, is_line_blank, return_hint};

use coati_top::put;
use coati_word::OutOfMemory;

/// What a person may have tripped over in a line.
#[derive(Clone, Copy, Debug, PartialEq, Eq)]
pub(crate) enum Hint {
    Nothing,
    /// A CR before the line's end.
    ReturnBehind,
    /// Blanks behind `%%`.
    BlanksBehind,
}

/// Whether blanks stand behind the `%%` of the line.
pub(crate) fn divider_hint(line: &[u8]) -> Hint
    ensures { result ≡ divider_hint line.now }
{
    match line {
        [b'%', b'%', more @ ..] => behind_hint(more),
        _ => Hint::Nothing,
    }
}

fn behind_hint(more: &[u8]) -> Hint
    ensures { result ≡ behind_hint more.now }
{
    if more == b"\r".as_slice() {
        Hint::ReturnBehind
    } else if are_blanks(more) {
        Hint::BlanksBehind
    } else {
        Hint::Nothing
    }
}

/// Whether the bytes are blanks, one at least.
fn are_blanks(bytes: &[u8]) -> bool
    ensures { result ≡ are_blanks bytes.now }
{
    !bytes.is_empty() && has_only_blanks(bytes)
}

fn has_only_blanks(bytes: &[u8]) -> bool
    ensures { result ≡ list_all is_line_blank bytes.now }
{
    bytes.iter().all(|byte| is_line_blank(*byte))
}

/// Whether the byte is a space, a tab or a CR.
fn is_line_blank(byte: u8) -> bool
    ensures { result ≡ is_line_blank byte }
{
    matches!(byte, b' ' | b'\t' | b'\r')
}

/// Whether the line ends with a CR, which in a trace is a byte of its last field.
pub(crate) fn return_hint(line: &[u8]) -> Hint
    ensures { result ≡ return_hint line.now }
{
    if ends_with_return(line) {
        Hint::ReturnBehind
    } else {
        Hint::Nothing
    }
}

fn ends_with_return(line: &[u8]) -> bool
    ensures { result ≡ ends_with_return line.now }
{
    matches!(line, [.., b'\r'])
}

/// Appends the line that tells of it.
pub(crate) fn put_hint(out: &mut Vec<u8>, hint: Hint) -> Result<(), OutOfMemory>
    ensures { OnOk result (out.new.items ≡ out.old.items ++ hint_text hint) }
{
    match hint {
        Hint::Nothing => put(out, b""),
        Hint::ReturnBehind => put(
            out,
            b"a CR stands at the end of this line: save the input with LF alone behind its lines\n",
        ),
        Hint::BlanksBehind => put(
            out,
            b"the line that ends a source is `%%` alone: take away the blanks behind it\n",
        ),
    }
}
