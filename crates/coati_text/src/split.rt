ghost use Rattle.std.specs.Prelude.{◌≡◌};
ghost use Rattle.coati_text.specs.Line.{lines_of};

use crate::line_walk::Lines;

/// The lines of a text without their ends, each of which is one LF. A last line needs no end.
pub fn lines(text: &[u8]) -> Lines<'_>
    ensures { result ≡ lines_of text.now }
{
    Lines::of(text)
}
