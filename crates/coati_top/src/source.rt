//! The program of a source.

ghost use Rattle.std.specs.Prelude.{◌≡◌, ◌≤◌, ◌<◌, ◌^◌, length, IfOk, IfErr, OnOk};
ghost use Rattle.coati_top.specs.Source.{HasAccepted};
ghost use Rattle.coati_top.specs.SourceFaults.{LacksProgram, LacksTokens, LacksAcceptance, LacksSpelling};
ghost use Rattle.task_check.specs.Accepted.{IsAccepted};
ghost use Rattle.task_check.specs.WellFormed.{IsWellFormed};
ghost use Rattle.task_lex.specs.Reading.{Tokens};
ghost use Rattle.task_parse.specs.Faults.{Spells};

use crate::divided::source_part;
use crate::laws::spelled_programs_are_well_formed;
use crate::source_fault::{NoProgram, SourceFault};
use std::alloc::Global;
use task_check::{CheckFault, Checked, check};
use task_lex::{LexFault, Token, lex};
use task_parse::{ParseFault, parse};
use task_syntax::Program;

/// The accepted program of an input's source.
pub fn read_source(alloc: Global, input: &[u8]) -> Result<Checked, NoProgram>
    requires { length input.now ≤ 262144 }
    ensures program { IfOk result (HasAccepted input.now) }
    ensures fault { IfErr result (LacksProgram input.now) }
{
    let source = source_part(input);
    let tokens = tokens_of(alloc, source)?;
    let program = program_of(alloc, source, &tokens)?;
    let accepted = checked(alloc, program)?;
    Ok(accepted)
}

/// The tokens of a source.
fn tokens_of(alloc: Global, source: &[u8]) -> Result<Vec<Token>, NoProgram>
    requires { length source.now ≤ 262144 }
    ensures tokens { IfOk result (λ tokens. Tokens source.now tokens.items) }
    ensures few { IfOk result (λ tokens. length tokens.items ≤ length source.now) }
    ensures fault { IfErr result (LacksTokens source.now) }
{
    match lex(alloc, source) {
        Ok(tokens) => Ok(tokens),
        Err(LexFault::BadByte(at)) => Err(NoProgram::Fault(SourceFault::Lexical(at))),
        Err(LexFault::BadNumber(at)) => Err(NoProgram::Fault(SourceFault::Number(at))),
        Err(LexFault::OutOfMemory) => Err(NoProgram::OutOfMemory),
    }
}

/// The program that the tokens of a source spell.
fn program_of(alloc: Global, source: &[u8], tokens: &[Token]) -> Result<Program, NoProgram>
    requires read { Tokens source.now tokens.now }
    requires few { length tokens.now < 2 ^ 31 }
    ensures spelled { IfOk result (Spells source.now tokens.now) }
    ensures well_formed { IfOk result IsWellFormed }
    ensures fault { IfErr result (LacksSpelling source.now tokens.now) }
{
    spelled_programs_are_well_formed();
    match parse(alloc, source, tokens) {
        Ok(program) => Ok(program),
        Err(ParseFault::Syntax(token)) => Err(NoProgram::Fault(SourceFault::Syntax(token))),
        Err(ParseFault::TooDeep(token)) => Err(NoProgram::Fault(SourceFault::Deep(token))),
        Err(ParseFault::OutOfMemory) => Err(NoProgram::OutOfMemory),
    }
}

/// The program, where it is accepted.
fn checked(alloc: Global, program: Program) -> Result<Checked, NoProgram>
    requires { IsWellFormed program }
    ensures same { IfOk result (λ checked. checked ≡ program) }
    ensures accepted { OnOk result (IsAccepted program) }
    ensures fault { IfErr result (LacksAcceptance program) }
{
    match check(alloc, program) {
        Ok(checked) => Ok(checked),
        Err(CheckFault::Rule { rule, at }) => Err(NoProgram::Fault(SourceFault::Rule(rule, at))),
        Err(CheckFault::OutOfMemory) => Err(NoProgram::OutOfMemory),
    }
}
