//! The tokens round a fault.
ghost use Rattle.std.specs.Prelude.{◌≡◌, ◌≤◌, All, length};
ghost use Rattle.task_lex.specs.Span.{IsTokenOf};
ghost use Rattle.coati_explain.specs.Messages.{syntax_message, text_before, token_place, token_text};

use crate::message::Message;
use task_lex::Token;

/// The place of a token by its number, or the source's end behind the last token.
pub(crate) fn token_place(source: &[u8], tokens: &[Token], number: u32) -> u32
    requires small { length source.now ≤ 262144 }
    requires texts { All (IsTokenOf source.now) tokens.now }
    ensures place { result ≡ token_place source.now tokens.now number }
    ensures within { result ≤ length source.now }
{
    match tokens.get(number as usize) {
        Some(token) => token.start,
        None => source.len() as u32,
    }
}

/// Its text, which is empty behind the last token.
pub(crate) fn token_text<'a>(source: &'a [u8], tokens: &[Token], number: u32) -> &'a [u8]
    requires { All (IsTokenOf source.now) tokens.now }
    ensures { result.now ≡ token_text source.now tokens.now number }
{
    match tokens.get(number as usize) {
        Some(token) => token.text(source),
        None => &[],
    }
}

/// The text of the token before, which is empty before the first one.
pub(crate) fn text_before<'a>(source: &'a [u8], tokens: &[Token], number: u32) -> &'a [u8]
    requires { All (IsTokenOf source.now) tokens.now }
    ensures { result.now ≡ text_before source.now tokens.now number }
{
    if number == 0 {
        &[]
    } else {
        token_text(source, tokens, number - 1)
    }
}

/// Of the token of this number, with which no program goes on, or behind which there is none.
pub(crate) fn syntax_message(tokens: &[Token], number: u32) -> Message
    ensures { result ≡ syntax_message tokens.now number }
{
    match (tokens.get(number as usize).is_some(), number == 0) {
        (true, true) => Message::NoBeginning,
        (true, false) => Message::NoGoingOn,
        (false, true) => Message::NoTokens,
        (false, false) => Message::EndsEarly,
    }
}
