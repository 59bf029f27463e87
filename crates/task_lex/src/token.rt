ghost use Rattle.std.specs.Prelude.{◌≡◌, slice_range};
ghost use Rattle.task_lex.specs.Span.{IsTokenOf};
ghost use Rattle.task_lex.specs.Token.{Spells};

use crate::{Keyword, Symbol};

/// What a token is.
#[derive(Clone, Copy, Debug, PartialEq, Eq)]
pub enum TokenKind {
    /// A name that is no keyword.
    Name,
    /// A number, with its value.
    Number(u16),
    /// A word of the language.
    Keyword(Keyword),
    /// One or two signs.
    Symbol(Symbol),
}

/// A token and the place of its text in the source.
#[derive(Clone, Copy, Debug, PartialEq, Eq)]
pub struct Token {
    /// What it is.
    pub kind: TokenKind,
    /// The place of its first byte.
    pub start: u32,
    /// The place behind its last byte.
    pub end: u32,
}

impl Token {
    /// The token's text in its source.
    pub fn text<'a>(&self, source: &'a [u8]) -> &'a [u8]
        requires { IsTokenOf source.now self.now }
        ensures text { result.now ≡ slice_range source.now self.now.start self.now.end }
        ensures spelled { Spells self.now.kind result.now }
    {
        &source[self.start as usize..self.end as usize]
    }
}
