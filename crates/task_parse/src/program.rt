//! Whole programs.

ghost use Rattle.std.specs.Prelude.{◌≡◌, ◌<◌, ◌^◌, ℕ, length, IfOk, IfErr, Ok, Err};
ghost use Rattle.task_lex.specs.Reading.{Tokens};
ghost use Rattle.task_parse.specs.Answer.{Explains, IsAnswer};
ghost use Rattle.task_parse.specs.Faults.{DeepAt, FaultAt, Spells};
ghost use Rattle.task_parse.specs.Grammar.{Derives};
ghost use Rattle.task_parse.specs.Lexeme.{lexemes};
ghost use Rattle.task_parse.specs.Machine.{whole_parts};
ghost use Rattle.task_parse.specs.Spots.{Ends};
ghost use Rattle.task_parse.specs.declared.fault.ParseFault.TheVariants.{Syntax, TooDeep};
ghost use Rattle.task_syntax.specs.declared.program.Program.{Program};

use crate::ParseFault;
use crate::cursor::Cursor;
use crate::declaration::{buffer, variables};
use crate::event::events;
use crate::unit::units;
use std::alloc::Global;
use task_lex::{Token, tokens_stand_in_their_source};
use task_syntax::Program;

/// The program that the tokens of a source spell, or the first token that is at fault. The tokens
/// are those of the source, as `lex` gives them.
pub fn parse(alloc: Global, source: &[u8], tokens: &[Token]) -> Result<Program, ParseFault>
    requires tokens { Tokens source.now tokens.now }
    requires few { length tokens.now < 2 ^ 31 }

    // The answer is the one program that the tokens spell, or their first fault, unless memory was
    // refused.
    ensures spelled { IfOk result (Spells source.now tokens.now) }
    ensures alone { IfOk result (λ program. (other : Program)
        → Derives (lexemes source.now tokens.now) other → other ≡ program) }
    ensures fault { IfErr result (Explains (lexemes source.now tokens.now)) }

    // Each program that is spelled is the answer, and each fault that is the first is told, unless
    // memory was refused.
    ensures accepts { (program : Program) → Spells source.now tokens.now program →
        IsAnswer result (Ok program) }
    ensures refuses { (n : ℕ) → FaultAt (lexemes source.now tokens.now) n →
        IsAnswer result (Err (Syntax n)) }
    ensures bars { (n : ℕ) → DeepAt (lexemes source.now tokens.now) n →
        IsAnswer result (Err (TooDeep n)) }
{
    tokens_stand_in_their_source();
    let mut cursor = Cursor::new(source, tokens);
    program(alloc, &mut cursor)
}

/// Reads all the tokens.
fn program(alloc: Global, cursor: &mut Cursor<'_>) -> Result<Program, ParseFault>
    ensures reads { IfOk result (Derives cursor.old.rest) }
    ensures ends { Ends cursor.old whole_parts result }
{
    let vars = variables(alloc, cursor)?;
    let buffer = buffer(cursor)?;
    let events = events(alloc, cursor)?;
    let units = units(alloc, cursor)?;
    Ok(Program {
        vars,
        buffer,
        events,
        units,
    })
}
