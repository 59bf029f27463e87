//! What stands at the front of a text, and what stands behind it.

ghost use Rattle.std.specs.Prelude.{◌≡◌, ◌+◌, ◌≤◌, ◌<◌, length, IfSome};
ghost use Rattle.std.specs.Option.{option_map};
ghost use Rattle.task_lex.specs.Byte.{is_name_byte};
ghost use Rattle.trace_out.specs.Front.{alone, behind, behind_name, last_number, name_at, name_len, number_at};

use coati_text::Cursor;

/// What stands behind the word, where the text begins with it.
#[tactic(auto, unfolding(crate::specs::Front::behind))]
pub(crate) fn behind<'a>(text: &'a [u8], word: &[u8]) -> Option<&'a [u8]>
    ensures rest { option_map (λ rest. rest.now) result ≡ behind word.now text.now }
    ensures shorter { IfSome result (λ rest. length rest.now + length word.now ≡ length text.now) }
{
    if text.len() < word.len() {
        return None;
    }
    let (front, rest) = text.split_at(word.len());
    if front == word { Some(rest) } else { None }
}

/// The value, where nothing stands behind it.
pub(crate) fn alone<T: Copy>(value: T, rest: &[u8]) -> Option<T>
    ensures { result ≡ alone value rest.now }
{
    if rest.is_empty() { Some(value) } else { None }
}

/// The number whose decimal stands there, if it is at most `most`.
#[tactic(auto, unfolding(crate::specs::Front::number_at))]
pub(crate) fn number_at(most: u32, text: &[u8]) -> Option<(u32, &[u8])>
    ensures number { option_map (λ found. (found.0, found.1.now)) result
        ≡ number_at most text.now }
    ensures most { IfSome result (λ found. found.0 ≤ most) }
    ensures shorter { IfSome result (λ found. length found.1.now ≤ length text.now) }
{
    let mut cursor = Cursor {
        bytes: text,
        place: 0,
    };
    let number = cursor.read_decimal(most).ok()?;
    Some((number, &text[cursor.place..]))
}

/// The same, with nothing behind it.
#[tactic(auto, unfolding(crate::specs::Front::last_number))]
pub(crate) fn last_number(most: u32, text: &[u8]) -> Option<u32>
    ensures { result ≡ last_number most text.now }
{
    let (number, rest) = number_at(most, text)?;
    alone(number, rest)
}

/// The longest run of letters, digits and `_`, and what stands behind it.
pub(crate) fn name_at(text: &[u8]) -> (&[u8], &[u8])
    ensures name { result.0.now ≡ name_at text.now }
    ensures rest { result.1.now ≡ behind_name text.now }
    ensures shorter { length result.1.now ≤ length text.now }
{
    text.split_at(name_len(text))
}

fn name_len(text: &[u8]) -> usize
    ensures exact { result ≡ name_len text.now }
    ensures within { result ≤ length text.now }
{
    text.iter().take_while(|byte| is_name_byte(**byte)).count()
}

/// A letter, a digit or `_`.
fn is_name_byte(byte: u8) -> bool
    ensures { result ≡ is_name_byte byte }
{
    byte.is_ascii_alphanumeric() || byte == b'_'
}
