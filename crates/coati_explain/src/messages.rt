//! Which message tells of a fault of the source.
ghost use Rattle.std.specs.Prelude.{◌≡◌, ◌≤◌, drop, length, take};
ghost use Rattle.std.specs.Char.{is_ascii_digit};
ghost use Rattle.std.specs.List.{list_all, prefix_len};
ghost use Rattle.task_lex.specs.Byte.{is_name_byte};
ghost use Rattle.coati_explain.specs.Messages.{begins_with_mark, byte_message, deep_message, front_word, is_bracket, lexical_message, number_message, rule_message};

use crate::message::Message;
use crate::shown::is_printable;
use task_check::Rule;

/// What stands in the text from a place on.
pub(crate) fn text_from(text: &[u8], at: u32) -> &[u8]
    ensures { result.now ≡ drop at text.now }
{
    let at = at as usize;
    if at <= text.len() { &text[at..] } else { &[] }
}

/// The text's first byte, where it has one.
pub(crate) fn first_byte(text: &[u8]) -> &[u8]
    ensures { result.now ≡ take 1 text.now }
{
    if text.is_empty() { text } else { &text[..1] }
}

/// The letters, digits and `_` at the front.
pub(crate) fn front_word(text: &[u8]) -> &[u8]
    ensures { result.now ≡ front_word text.now }
{
    &text[..word_len(text)]
}

/// How many they are.
fn word_len(text: &[u8]) -> usize
    ensures len { result ≡ prefix_len is_name_byte text.now }
    ensures within { result ≤ length text.now }
{
    text.iter().take_while(|byte| is_name_byte(**byte)).count()
}

/// Whether the byte is a letter, a digit or `_`.
fn is_name_byte(byte: u8) -> bool
    ensures { result ≡ is_name_byte byte }
{
    byte.is_ascii_alphabetic() || byte == b'_' || byte.is_ascii_digit()
}

/// Of a byte that starts nothing: this is its place, and this the text from there on.
pub(crate) fn lexical_message(at: u32, text: &[u8]) -> Message
    ensures { result ≡ lexical_message at text.now }
{
    if at == 0 && begins_with_mark(text) {
        Message::ByteOrderMark
    } else {
        byte_message(text)
    }
}

/// Whether the text begins with a byte order mark.
fn begins_with_mark(text: &[u8]) -> bool
    ensures { result ≡ begins_with_mark text.now }
{
    matches!(text, [0xEF, 0xBB, 0xBF, ..])
}

/// Of the byte that the text begins with.
fn byte_message(text: &[u8]) -> Message
    ensures { result ≡ byte_message text.now }
{
    match text {
        [byte, ..] if !is_printable(*byte) => Message::UnprintableByte(*byte),
        _ => Message::StrangeByte,
    }
}

/// Of what looks like a number.
pub(crate) fn number_message(word: &[u8]) -> Message
    ensures { result ≡ number_message word.now }
{
    if are_digits(word) {
        Message::GreatNumber
    } else {
        Message::NumberIntoLetter
    }
}

/// Whether the bytes are digits alone.
fn are_digits(bytes: &[u8]) -> bool
    ensures { result ≡ list_all is_ascii_digit bytes.now }
{
    bytes.iter().all(|byte| is_digit(*byte))
}

fn is_digit(byte: u8) -> bool
    ensures { result ≡ is_ascii_digit byte }
{
    byte.is_ascii_digit()
}

/// Of a broken rule, where this word stands at its place.
pub(crate) fn rule_message(rule: Rule, word: &[u8]) -> Message
    ensures { result ≡ rule_message rule word.now }
{
    match rule {
        Rule::TwiceNamed => Message::TwiceNamed,
        Rule::Unknown => Message::Unknown,
        Rule::WrongKind => Message::WrongKind,
        Rule::BadCount => Message::BadCount,
        Rule::BadBuffer => Message::BadBuffer,
        Rule::TooManyWords => Message::TooManyWords,
        Rule::TooManyTasks => Message::TooManyTasks,
        Rule::NoEnding => Message::NoEnding,
        Rule::EarlyEnding => ending_message(word),
        Rule::IntoTx => Message::IntoTx,
        Rule::TopReadsNv => Message::TopReadsNv,
        Rule::GiveShape => shape_message(word),
        Rule::LoopAssigned => Message::LoopAssigned,
        Rule::TooManyLocals => Message::TooManyLocals,
        Rule::TooDeepStack => Message::TooDeepStack,
        Rule::TooLong(_) => Message::TooLong,
    }
}

/// Of an ending that stands where it may not.
fn ending_message(word: &[u8]) -> Message
    ensures { result ≡ rule_message Rule.EarlyEnding word.now }
{
    if word == b"halt".as_slice() || word == b"give".as_slice() {
        Message::EarlyEnding
    } else {
        Message::EarlyNext
    }
}

/// Of a message of another shape than is asked.
fn shape_message(word: &[u8]) -> Message
    ensures { result ≡ rule_message Rule.GiveShape word.now }
{
    if word == b"give".as_slice() {
        Message::GiveCount
    } else {
        Message::FifthParameter
    }
}

/// Of a token that stands too deep.
pub(crate) fn deep_message(word: &[u8]) -> Message
    ensures { result ≡ deep_message word.now }
{
    if is_bracket(word) {
        Message::ManyBrackets
    } else {
        Message::ManyOperators
    }
}

/// Whether the word is an open bracket.
fn is_bracket(word: &[u8]) -> bool
    ensures { result ≡ is_bracket word.now }
{
    word == b"(".as_slice() || word == b"[".as_slice() || word == b"{".as_slice()
}
