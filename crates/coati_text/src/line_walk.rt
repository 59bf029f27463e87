ghost use Rattle.std.specs.Prelude.{◌≡◌, ◌≤◌, length, drop};
ghost use Rattle.std.specs.Iterator.{YieldsFirstBy, item_count};
ghost use Rattle.coati_text.specs.Line.{lines_of, line_len};

use std::marker::Model;

/// Goes over the lines of a text. A contract sees the list of the lines that are left.
#[derive(Drop)]
pub struct Lines<'a> {
    text: &'a [u8],
}

impl<'a> Model for Lines<'a> {
    ghost use Rattle.std.specs.Prelude.{ℕ, List};
    ghost use Rattle.coati_text.specs.Line.{lines_of};

    ghost Value = { List (List ℕ) };

    ghost view = { λ s. lines_of s.text.now };
}

impl<'a> Lines<'a> {
    /// The lines of this text.
    pub(crate) fn of(text: &'a [u8]) -> Lines<'a>
        ensures { result ≡ lines_of text.now }
    {
        Lines { text }
    }
}

impl<'a> Iterator for Lines<'a> {
    type Item = &'a [u8];

    ghost next_gives = { YieldsFirstBy (λ line. line.now) (λ left. left) };

    ghost remaining = { item_count (λ left. left) };

    fn next(&mut self) -> Option<&'a [u8]> {
        let text = self.text;
        if text.is_empty() {
            return None;
        }
        let len = line_len(text);
        self.text = behind(text, len + 1);
        Some(&text[..len])
    }
}

/// How many bytes stand before the first line's end.
fn line_len(text: &[u8]) -> usize
    ensures exact { result ≡ line_len text.now }
    ensures within { result ≤ length text.now }
{
    text.iter().take_while(|byte| **byte != b'\n').count()
}

/// What stands behind the first `count` bytes.
fn behind(text: &[u8], count: usize) -> &[u8]
    ensures { result.now ≡ drop count text.now }
{
    if count <= text.len() {
        &text[count..]
    } else {
        &[]
    }
}
