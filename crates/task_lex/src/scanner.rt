ghost use Rattle.std.specs.Prelude.{◌≡◌, ◌^◌, ◌<◌, ◌≤◌, List, length, All, IfOk, IfErr, Ok, Err};
ghost use Rattle.task_lex.specs.Answer.{Explains, IsAnswer};
ghost use Rattle.task_lex.specs.Reading.{Tokens, FaultsAt};
ghost use Rattle.task_lex.specs.Span.{AreInOrder, IsTokenOf};

use crate::front::{Front, front_of};
use crate::{LexFault, Token, TokenKind};
use std::alloc::Global;

/// The tokens of the source, or its first fault.
pub fn lex(alloc: Global, source: &[u8]) -> Result<Vec<Token>, LexFault>
    requires { length source.now < 2 ^ 31 }

    // The answer is the source's tokens or its first fault, unless memory ran out.
    ensures tokens { IfOk result (λ tokens. Tokens source.now tokens.items) }
    ensures fault { IfErr result (Explains source.now) }

    // A source that has tokens gets them, and a fault that is the first is told, unless memory ran
    // out.
    ensures accepts { (tokens : List Token) → Tokens source.now tokens →
        IsAnswer result (Ok tokens) }
    ensures refuses { (fault : LexFault) → FaultsAt source.now fault →
        IsAnswer result (Err fault) }

    ensures order { IfOk result (λ tokens. AreInOrder 0 tokens.items (length source.now)) }
    ensures texts { IfOk result (λ tokens. All (IsTokenOf source.now) tokens.items) }
{
    let mut tokens = Vec::new(alloc);
    let mut place = 0;
    while place < source.len() {
        match front_of(&source[place..]) {
            Front::Gap(len) => place += len,
            Front::Token(kind, len) => {
                let token = Token {
                    kind,
                    start: place as u32,
                    end: (place + len) as u32,
                };
                tokens.push(token).map_err(|_| LexFault::OutOfMemory)?;
                place += len;
            }
            Front::BadByte => return Err(LexFault::BadByte(place as u32)),
            Front::BadNumber => return Err(LexFault::BadNumber(place as u32)),
        }
    }
    Ok(tokens)
}
