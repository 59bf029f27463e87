ghost use Rattle.std.specs.Prelude.{◌≡◌, ◌≢◌, ◌<◌, ◌≤◌, [], ◌∷◌, take, drop, length, IfSome, MatchOption};
ghost use Rattle.task_lex.specs.Token.{Fits, IsToken};
ghost use Rattle.task_lex.specs.Spelling.{symbol_text};

use crate::TokenKind;

/// A token of one or two signs.
#[derive(Clone, Copy, Debug, PartialEq, Eq)]
pub enum Symbol {
    OpenBrace,
    CloseBrace,
    OpenParen,
    CloseParen,
    OpenBracket,
    CloseBracket,
    Semicolon,
    Comma,
    Assign,
    Equal,
    NotEqual,
    Below,
    AtMost,
    Above,
    AtLeast,
    ShiftLeft,
    ShiftRight,
    Plus,
    Minus,
    Times,
    Divide,
    Remainder,
    And,
    Or,
    Xor,
    Invert,
    Not,
}

/// The longest symbol that stands at the front, and its length.
pub(crate) fn symbol_at(text: &[u8]) -> Option<(Symbol, usize)>
    ensures stands { MatchOption result ((symbol : Symbol) → Fits symbol text.now → ⊥)
        (λ found. IsToken (TokenKind.Symbol found.0) (take found.1 text.now)
        (drop found.1 text.now)) }
    ensures takes { IfSome result (λ found. (0 < found.1) × (found.1 ≤ length text.now)) }
{
    match text {
        [] => None,
        [first] => Some((symbol_of_one(*first)?, 1)),
        [first, second, ..] => match symbol_of_two(*first, *second) {
            Some(symbol) => Some((symbol, 2)),
            None => Some((symbol_of_one(*first)?, 1)),
        },
    }
}

/// The symbol of this one sign.
fn symbol_of_one(sign: u8) -> Option<Symbol>
    ensures { MatchOption result ((symbol : Symbol) → symbol_text symbol ≢ sign ∷ [])
        (λ symbol. symbol_text symbol ≡ sign ∷ []) }
{
    match sign {
        b'{' => Some(Symbol::OpenBrace),
        b'}' => Some(Symbol::CloseBrace),
        b'(' => Some(Symbol::OpenParen),
        b')' => Some(Symbol::CloseParen),
        b'[' => Some(Symbol::OpenBracket),
        b']' => Some(Symbol::CloseBracket),
        b';' => Some(Symbol::Semicolon),
        b',' => Some(Symbol::Comma),
        b'=' => Some(Symbol::Assign),
        b'<' => Some(Symbol::Below),
        b'>' => Some(Symbol::Above),
        b'+' => Some(Symbol::Plus),
        b'-' => Some(Symbol::Minus),
        b'*' => Some(Symbol::Times),
        b'/' => Some(Symbol::Divide),
        b'%' => Some(Symbol::Remainder),
        b'&' => Some(Symbol::And),
        b'|' => Some(Symbol::Or),
        b'^' => Some(Symbol::Xor),
        b'~' => Some(Symbol::Invert),
        b'!' => Some(Symbol::Not),
        _ => None,
    }
}

/// The symbol of these two signs.
fn symbol_of_two(first: u8, second: u8) -> Option<Symbol>
    ensures { MatchOption result ((symbol : Symbol) → symbol_text symbol ≢ first ∷ second ∷ [])
        (λ symbol. symbol_text symbol ≡ first ∷ second ∷ []) }
{
    match (first, second) {
        (b'=', b'=') => Some(Symbol::Equal),
        (b'!', b'=') => Some(Symbol::NotEqual),
        (b'<', b'=') => Some(Symbol::AtMost),
        (b'>', b'=') => Some(Symbol::AtLeast),
        (b'<', b'<') => Some(Symbol::ShiftLeft),
        (b'>', b'>') => Some(Symbol::ShiftRight),
        _ => None,
    }
}
