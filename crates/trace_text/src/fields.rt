ghost use Rattle.std.specs.Prelude.{◌≡◌, ◌≤◌, [], ◌∷◌, bytes_eq, codes, length};
ghost use Rattle.std.specs.Iterator.{YieldsFirstBy, item_count};
ghost use Rattle.std.specs.List.{position_or_len};
ghost use Rattle.std.specs.Option.{option_map_or};
ghost use Rattle.trace_text.specs.Fields.{fields_of, first_word, is_quiet, is_space};

use std::marker::Model;

/// Goes over the fields of a line. A contract sees the list of the fields that are left.
#[derive(Drop)]
pub(crate) struct Fields<'a> {
    /// What stands behind the last field that was taken, which is the line's last where there is
    /// none.
    rest: Option<&'a [u8]>,
}

impl<'a> Model for Fields<'a> {
    ghost use Rattle.std.specs.Prelude.{ℕ, List, []};
    ghost use Rattle.std.specs.Option.{option_map_or};
    ghost use Rattle.trace_text.specs.Fields.{fields_of};

    ghost Value = { List (List ℕ) };

    ghost view = { λ s. option_map_or (λ line. fields_of line.now) s.rest [] };
}

impl<'a> Fields<'a> {
    /// The fields of this line behind its first word.
    pub(crate) fn behind_first_word(line: &'a [u8]) -> Fields<'a>
        ensures { fields_of line.now ≡ first_word line.now ∷ result }
    {
        Fields {
            rest: behind_first_word(line),
        }
    }
}

impl<'a> Iterator for Fields<'a> {
    type Item = &'a [u8];

    ghost next_gives = { YieldsFirstBy (λ field. field.now) (λ left. left) };

    ghost remaining = { item_count (λ left. left) };

    fn next(&mut self) -> Option<&'a [u8]> {
        let line = self.rest?;
        self.rest = behind_first_word(line);
        Some(first_word(line))
    }
}

/// The bytes before the first space.
pub(crate) fn first_word(line: &[u8]) -> &[u8]
    ensures { result.now ≡ first_word line.now }
{
    &line[..first_word_len(line)]
}

/// What stands behind the first space, if there is one.
fn behind_first_word(line: &[u8]) -> Option<&[u8]>
    ensures { fields_of line.now
        ≡ first_word line.now ∷ option_map_or (λ rest. fields_of rest.now) result [] }
{
    let len = first_word_len(line);
    if len < line.len() {
        Some(&line[len + 1..])
    } else {
        None
    }
}

/// Whether the first word is `limit`.
pub(crate) fn begins_with_limit(line: &[u8]) -> bool
    ensures { result ≡ bytes_eq (first_word line.now) (codes "limit") }
{
    first_word(line) == b"limit".as_slice()
}

/// How many bytes stand before the first space.
fn first_word_len(line: &[u8]) -> usize
    ensures exact { result ≡ position_or_len is_space line.now }
    ensures within { result ≤ length line.now }
{
    line.iter().take_while(|byte| **byte != b' ').count()
}

/// Whether the line says nothing.
pub(crate) fn is_quiet(line: &[u8]) -> bool
    ensures { result ≡ is_quiet line.now }
{
    match line {
        [] => true,
        [first, ..] => *first == b'#',
    }
}
