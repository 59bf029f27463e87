ghost use Rattle.std.specs.Prelude.{◌≡◌, ◌+◌, ◌^◌, ◌≤◌, ◌<◌, ℕ, true, false, List, length, min, slice_index, EachIndex};
ghost use Rattle.std.specs.Char.{IsAsciiDigit, is_ascii_digit};
ghost use Rattle.std.specs.List.{prefix_len};
ghost use Rattle.std.specs.Str.Parse.{digits_value};
ghost use Rattle.task_lex.specs.Front.{Stands, Takes};
ghost use Rattle.task_lex.specs.Byte.{begins, is_in_comment, is_name_byte, is_name_start};

use crate::TokenKind;
use crate::byte::{is_blank, is_name_byte, is_name_start};
use crate::keyword::keyword_of;
use crate::symbol::symbol_at;

/// What stands at the front of a text, with its length.
#[derive(Clone, Copy)]
pub(crate) enum Front {
    /// A blank, or a comment.
    Gap(usize),
    /// A token.
    Token(TokenKind, usize),
    /// A byte that starts nothing.
    BadByte,
    /// Digits that are no number.
    BadNumber,
}

/// What stands at the front of the text.
pub(crate) fn front_of(text: &[u8]) -> Front
    requires { 0 < length text.now }
    ensures stands { Stands text.now result }
    ensures takes { Takes (length text.now) result }
{
    let first = text[0];
    if is_blank(first) {
        Front::Gap(1)
    } else if first == b'#' {
        Front::Gap(comment_len(text))
    } else if is_name_start(first) {
        word(text)
    } else if first.is_ascii_digit() {
        number(text)
    } else if let Some((symbol, len)) = symbol_at(text) {
        Front::Token(TokenKind::Symbol(symbol), len)
    } else {
        Front::BadByte
    }
}

/// The name or keyword at the front.
fn word(text: &[u8]) -> Front
    requires { begins is_name_start text.now ≡ true }
    ensures stands { Stands text.now result }
    ensures takes { Takes (length text.now) result }
{
    let len = name_len(text);
    let kind = match keyword_of(&text[..len]) {
        Some(keyword) => TokenKind::Keyword(keyword),
        None => TokenKind::Name,
    };
    Front::Token(kind, len)
}

/// The number at the front.
fn number(text: &[u8]) -> Front
    requires { begins is_ascii_digit text.now ≡ true }
    ensures stands { Stands text.now result }
    ensures takes { Takes (length text.now) result }
{
    let len = digits_len(text);
    let value = value_of(&text[..len]);
    if value > GREATEST_NUMBER || begins_name(&text[len..]) {
        return Front::BadNumber;
    }
    Front::Token(TokenKind::Number(value as u16), len)
}

/// The greatest number of a source.
const GREATEST_NUMBER: u32 = 65_535;

/// The value of the digits, or one more than the greatest number where that is less: no run is too
/// long for it.
fn value_of(digits: &[u8]) -> u32
    requires { EachIndex digits.now (λ k. IsAsciiDigit (slice_index digits.now k)) }
    ensures { result ≡ min (digits_value 10 digits.now) (GREATEST_NUMBER + 1) }
{
    let mut value = 0;
    for digit in digits {
        value = (value * 10 + u32::from(*digit - b'0')).min(GREATEST_NUMBER + 1);
    }
    value
}

/// Whether a letter or `_` comes first.
fn begins_name(text: &[u8]) -> bool
    ensures { result ≡ begins is_name_start text.now }
{
    match text {
        [] => false,
        [first, ..] => is_name_start(*first),
    }
}

/// How many letters, digits and `_` stand at the front.
fn name_len(text: &[u8]) -> usize
    ensures len { result ≡ prefix_len is_name_byte text.now }
    ensures within { result ≤ length text.now }
{
    text.iter().take_while(|byte| is_name_byte(**byte)).count()
}

/// How many digits stand at the front.
fn digits_len(text: &[u8]) -> usize
    ensures len { result ≡ prefix_len is_ascii_digit text.now }
    ensures within { result ≤ length text.now }
{
    text.iter().take_while(|byte| byte.is_ascii_digit()).count()
}

/// How many bytes stand before the first LF.
fn comment_len(text: &[u8]) -> usize
    ensures len { result ≡ prefix_len is_in_comment text.now }
    ensures within { result ≤ length text.now }
{
    text.iter().take_while(|byte| **byte != b'\n').count()
}
