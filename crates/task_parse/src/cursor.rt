ghost use Rattle.std.specs.Prelude.{◌≡◌, ◌^◌, ◌<◌, ◌≤◌, length, true, false, All};
ghost use Rattle.task_lex.specs.Span.{IsTokenOf};
ghost use Rattle.task_parse.specs.Bars.{closes, most_open, opens};
ghost use Rattle.task_parse.specs.Lexeme.{Lexeme, lexemes};
ghost use Rattle.task_parse.specs.Machine.{Part};
ghost use Rattle.task_parse.specs.Readings.{HasToken};
ghost use Rattle.task_parse.specs.Spots.{first_kind, first_operator, first_unary, is_at, is_at_name, is_at_word, is_name, is_sign, is_word, moved, none_left};
ghost use Rattle.task_parse.specs.declared.fault.ParseFault.TheVariants as fault;

use crate::ParseFault;
use crate::operator::{operator_of, unary_of};
use coati_word::limits::OPEN_BRACKETS;
use coati_word::{Op, Op1};
use std::alloc::Global;
use std::marker::Model;
use task_lex::{Keyword, Symbol, Token, TokenKind};
use task_syntax::{Name, NameText, Number};

/// Reads the tokens of a source one after another. A contract sees what is left to read, the
/// number of the token that comes next, and how many brackets are open.
#[derive(Drop)]
pub(crate) struct Cursor<'a> {
    source: &'a [u8],
    left: &'a [Token],
    at: u32,
    depth: usize,
}

impl<'a> Model for Cursor<'a> {
    ghost use Rattle.task_parse.specs.Machine.{Spot};

    ghost Value = { Spot };

    ghost use Rattle.task_parse.specs.View.{spot_of, IsWithin};

    ghost view = { spot_of };

    ghost invariant = { IsWithin };
}

impl<'a> Cursor<'a> {
    pub(crate) fn new(source: &'a [u8], tokens: &'a [Token]) -> Cursor<'a>
        requires few { length tokens.now < 2 ^ 31 }
        requires texts { All (IsTokenOf source.now) tokens.now }
        ensures { result ≡ record { rest = lexemes source.now tokens.now; at = 0; depth = 0 } }
    {
        Cursor {
            source,
            left: tokens,
            at: 0,
            depth: 0,
        }
    }

    /// What comes next.
    pub(crate) fn peek(&self) -> Option<TokenKind>
        ensures { result ≡ first_kind self.now.rest }
    {
        match self.left {
            [token, ..] => Some(token.kind),
            [] => None,
        }
    }

    /// Whether this sign comes next.
    pub(crate) fn is_at(&self, wanted: Symbol) -> bool
        ensures { result ≡ is_at wanted self.now.rest }
    {
        match self.left {
            [token, ..] => is_sign(token.kind, wanted),
            [] => false,
        }
    }

    /// Whether this word comes next.
    pub(crate) fn is_at_word(&self, wanted: Keyword) -> bool
        ensures { result ≡ is_at_word wanted self.now.rest }
    {
        match self.left {
            [token, ..] => is_word(token.kind, wanted),
            [] => false,
        }
    }

    /// Whether a name comes next.
    pub(crate) fn is_at_name(&self) -> bool
        ensures { result ≡ is_at_name self.now.rest }
    {
        match self.left {
            [token, ..] => is_name(token.kind),
            [] => false,
        }
    }

    /// Whether all tokens were read.
    pub(crate) fn is_at_end(&self) -> bool
        ensures { result ≡ none_left self.now.rest }
    {
        self.left.is_empty()
    }

    /// The operator between operands that comes next, if one does.
    pub(crate) fn operator(&self) -> Option<Op>
        ensures { result ≡ first_operator self.now.rest }
    {
        match self.left {
            [token, ..] => match token.kind {
                TokenKind::Symbol(symbol) => operator_of(symbol),
                _ => None,
            },
            [] => None,
        }
    }

    /// The operator before an operand that comes next, if one does.
    pub(crate) fn unary(&self) -> Option<Op1>
        ensures { result ≡ first_unary self.now.rest }
    {
        match self.left {
            [token, ..] => match token.kind {
                TokenKind::Symbol(symbol) => unary_of(symbol),
                _ => None,
            },
            [] => None,
        }
    }

    /// That what comes next can't stand there.
    pub(crate) fn misplaced(&self) -> ParseFault
        ensures { result ≡ fault.Syntax self.now.at }
    {
        ParseFault::Syntax(self.at)
    }

    /// That what comes next is one too many.
    pub(crate) fn too_many(&self) -> ParseFault
        ensures { result ≡ fault.TooDeep self.now.at }
    {
        ParseFault::TooDeep(self.at)
    }

    /// Goes behind the token that comes next, which is no bracket.
    pub(crate) fn advance(&mut self)
        requires { none_left self.old.rest ≡ false }
        ensures moved { self.new ≡ moved self.old self.old.depth }
        ensures shrinks { length self.new.rest < length self.old.rest }
    {
        self.go_on(self.depth);
    }

    /// Goes behind the token that comes next, where so many brackets are open then.
    fn go_on(&mut self, depth: usize)
        requires some { none_left self.old.rest ≡ false }
        requires shallow { depth ≤ most_open }
        ensures moved { self.new ≡ moved self.old depth }
        ensures shrinks { length self.new.rest < length self.old.rest }
    {
        if let [_, rest @ ..] = self.left {
            self.left = rest;
            self.at += 1;
            self.depth = depth;
        }
    }

    /// Reads this word, and gives its place.
    pub(crate) fn word(&mut self, wanted: Keyword) -> Result<u32, ParseFault>
        ensures { HasToken (Lexeme.word wanted) (Part.Word wanted) self.old self.new result }
    {
        match self.left {
            [token, ..] if is_word(token.kind, wanted) => {
                let at = token.start;
                self.advance();
                Ok(at)
            }
            _ => Err(self.misplaced()),
        }
    }

    /// Reads this sign, which is no bracket.
    pub(crate) fn sign(&mut self, wanted: Symbol) -> Result<(), ParseFault>
        requires closed { opens (Lexeme.sign wanted) ≡ false }
        requires open { closes (Lexeme.sign wanted) ≡ false }
        ensures { HasToken (λ _. Lexeme.sign wanted) (Part.Sign wanted) self.old self.new result }
    {
        if !self.is_at(wanted) {
            return Err(self.misplaced());
        }
        self.advance();
        Ok(())
    }

    /// Reads this bracket, which opens.
    pub(crate) fn open(&mut self, wanted: Symbol) -> Result<(), ParseFault>
        requires { opens (Lexeme.sign wanted) ≡ true }
        ensures { HasToken (λ _. Lexeme.sign wanted) (Part.Sign wanted) self.old self.new result }
    {
        if !self.is_at(wanted) {
            return Err(self.misplaced());
        }
        if self.depth == OPEN_BRACKETS {
            return Err(self.too_many());
        }
        self.go_on(self.depth + 1);
        Ok(())
    }

    /// Reads this bracket, which closes.
    pub(crate) fn close(&mut self, wanted: Symbol) -> Result<(), ParseFault>
        requires closed { opens (Lexeme.sign wanted) ≡ false }
        requires closes { closes (Lexeme.sign wanted) ≡ true }
        ensures { HasToken (λ _. Lexeme.sign wanted) (Part.Sign wanted) self.old self.new result }
    {
        if !self.is_at(wanted) {
            return Err(self.misplaced());
        }
        self.go_on(self.depth.saturating_sub(1));
        Ok(())
    }

    /// Reads a name.
    pub(crate) fn name(&mut self, alloc: Global) -> Result<Name, ParseFault>
        ensures { HasToken Lexeme.name Part.AName self.old self.new result }
    {
        match self.left {
            [token, ..] if is_name(token.kind) => {
                let text = NameText::from_slice(alloc, token.text(self.source))?;
                self.advance();
                Ok(Name {
                    text,
                    at: token.start,
                })
            }
            _ => Err(self.misplaced()),
        }
    }

    /// Reads a number.
    pub(crate) fn number(&mut self) -> Result<Number, ParseFault>
        ensures { HasToken (λ n. Lexeme.number n.value n.at) Part.ANumber self.old self.new
            result }
    {
        match self.left {
            [token, ..] => match token.kind {
                TokenKind::Number(value) => {
                    self.advance();
                    Ok(Number {
                        value,
                        at: token.start,
                    })
                }
                _ => Err(self.misplaced()),
            },
            [] => Err(self.misplaced()),
        }
    }
}

fn is_sign(kind: TokenKind, wanted: Symbol) -> bool
    ensures { result ≡ is_sign wanted kind }
{
    kind == TokenKind::Symbol(wanted)
}

fn is_word(kind: TokenKind, wanted: Keyword) -> bool
    ensures { result ≡ is_word wanted kind }
{
    kind == TokenKind::Keyword(wanted)
}

fn is_name(kind: TokenKind) -> bool
    ensures { result ≡ is_name kind }
{
    kind == TokenKind::Name
}
