//! What each command gives to an input that it serves.

ghost use Rattle.coati_gen.specs.Generated.{generated};
ghost use Rattle.std.specs.Prelude.{◌≡◌, ◌≤◌, length, IfErr, IfOk};
ghost use Rattle.coati_top.specs.Answer.{AsksFor, Serves};
ghost use Rattle.coati_top.specs.Refused.{IsUnserved, Refuses, RefusesRun, RefusesSource};
ghost use Rattle.coati_top.specs.Runs.{IsRun};
ghost use Rattle.coati_top.specs.Served.{served_board, served_text};
ghost use Rattle.coati_top.specs.Source.{HasAccepted};
ghost use Rattle.coati_top.specs.Divided.{second_part};
ghost use Rattle.coati_top.specs.Words.{IsServable, greatest_rounds};
ghost use Rattle.trace_text.specs.Trace.{TraceText};

use crate::Command;
use crate::check_text::check_text;
use crate::divided::second_part;
use crate::drive::run_script;
use crate::loaded::loaded;
use crate::refusal::{Refusal, Unserved};
use crate::replayed::replayed;
use crate::source::read_source;
use crate::source_fault::NoProgram;
use coati_board::Board;
use coati_gen::{GenFault, generate};
use coati_word::Mode;
use codegen::{compile, listing};
use serial_log::Script;
use std::alloc::Global;
use task_check::Checked;
use trace_text::{TraceFault, read_trace, scripts_are_within_the_limits};

/// What a command gives.
#[derive(Drop)]
pub(crate) enum Served {
    Text(Vec<u8>),
    /// The board of a run, whose text is not made before it is written.
    Run(Board),
    /// The summary of a run, and its board.
    Load(Vec<u8>, Board),
}

/// What the command gives to the input, where it serves it.
pub(crate) fn serve(alloc: Global, command: Command, input: &[u8]) -> Result<Served, Unserved>
    requires small { length input.now ≤ 262144 }
    requires servable { IsServable command }
    ensures served { IfOk result (λ given. Serves command input.now (served_text given)
        (served_board given)) }
    ensures unserved { IfErr result (IsUnserved (Refuses command input.now)) }
{
    match command {
        Command::Check => measured(alloc, input),
        Command::Dump => listed(alloc, input),
        Command::Run(mode) => ran(alloc, mode, input),
        Command::Replay(mode) => replayed(alloc, mode, input),
        Command::Generate(rounds) => {
            let text = generated(alloc, rounds)?;
            Ok(Served::Text(text))
        }
        Command::Load(mode, rounds) => loaded(alloc, mode, rounds),
    }
}

/// What `check` gives.
fn measured(alloc: Global, input: &[u8]) -> Result<Served, Unserved>
    requires { length input.now ≤ 262144 }
    ensures served { IfOk result (λ given. Serves Command.Check input.now (served_text given)
        (served_board given)) }
    ensures unserved { IfErr result (IsUnserved (RefusesSource input.now)) }
{
    let checked = accepted(alloc, input)?;
    let text = check_text(alloc, &checked)?;
    Ok(Served::Text(text))
}

/// What `dump` gives.
fn listed(alloc: Global, input: &[u8]) -> Result<Served, Unserved>
    requires { length input.now ≤ 262144 }
    ensures served { IfOk result (λ given. Serves Command.Dump input.now (served_text given)
        (served_board given)) }
    ensures unserved { IfErr result (IsUnserved (RefusesSource input.now)) }
{
    let checked = accepted(alloc, input)?;
    let code = compile(alloc, &checked)?;
    let text = listing(alloc, &checked, &code)?;
    Ok(Served::Text(text))
}

/// What `run` gives.
fn ran(alloc: Global, mode: Mode, input: &[u8]) -> Result<Served, Unserved>
    requires { length input.now ≤ 262144 }
    ensures served { IfOk result (λ given. Serves (Command.Run mode) input.now (served_text given)
        (served_board given)) }
    ensures unserved { IfErr result (IsUnserved (RefusesRun input.now)) }
{
    Ok(Served::Run(run_of(alloc, mode, input)?))
}

/// The run that the input asks for.
pub(crate) fn run_of(alloc: Global, mode: Mode, input: &[u8]) -> Result<Board, Unserved>
    requires { length input.now ≤ 262144 }
    ensures asked { IfOk result (λ run. AsksFor input.now run.program run.script) }
    ensures made { IfOk result (IsRun mode) }
    ensures unserved { IfErr result (IsUnserved (RefusesRun input.now)) }
{
    scripts_are_within_the_limits();
    let checked = accepted(alloc, input)?;
    let script = traced(alloc, input, &checked)?;
    Ok(run_script(alloc, checked, mode, script)?)
}

/// The generated input of so many rounds.
pub(crate) fn generated(alloc: Global, rounds: u16) -> Result<Vec<u8>, Unserved>
    requires { rounds ≤ greatest_rounds }
    ensures text { IfOk result (λ text. text.items ≡ generated rounds) }
    ensures unserved { IfErr result (λ why. why ≡ Unserved.OutOfMemory) }
{
    match generate(alloc, rounds) {
        Ok(text) => Ok(text),
        Err(GenFault::TooBig) => unreachable!(),
        Err(GenFault::OutOfMemory) => Err(Unserved::OutOfMemory),
    }
}

/// The program of the input's source, where it is accepted.
pub(crate) fn accepted(alloc: Global, input: &[u8]) -> Result<Checked, Unserved>
    requires { length input.now ≤ 262144 }
    ensures source { IfOk result (HasAccepted input.now) }
    ensures unserved { IfErr result (IsUnserved (RefusesSource input.now)) }
{
    match read_source(alloc, input) {
        Ok(checked) => Ok(checked),
        Err(NoProgram::Fault(fault)) => Err(Unserved::Refused(Refusal::Source(fault))),
        Err(NoProgram::OutOfMemory) => Err(Unserved::OutOfMemory),
    }
}

/// The script of the input's second part, where it is a trace of its program.
fn traced(alloc: Global, input: &[u8], checked: &Checked) -> Result<Script, Unserved>
    requires small { length input.now ≤ 262144 }
    requires source { HasAccepted input.now checked.now }
    ensures trace { IfOk result (TraceText checked.now (second_part input.now)) }
    ensures unserved { IfErr result (IsUnserved (RefusesRun input.now)) }
{
    match read_trace(alloc, checked, second_part(input)) {
        Ok(script) => Ok(script),
        Err(TraceFault::OutOfMemory) => Err(Unserved::OutOfMemory),
        Err(fault) => Err(Unserved::Refused(Refusal::Trace(fault))),
    }
}
