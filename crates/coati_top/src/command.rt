ghost use Rattle.std.specs.Prelude.{◌≡◌, ◌≤◌, IfSome, map, string_bytes};
ghost use Rattle.coati_top.specs.Words.{IsServable, command_of, greatest_rounds, loading, mode_of, reads, rounds_of};

use coati_word::Mode;
use trace_text::number_in;

/// What the words of a command line ask for.
#[derive(Clone, Copy, Debug, PartialEq, Eq)]
pub enum Command {
    /// Tell what the source of the input costs, or why it is refused.
    Check,
    /// List the code of the input's source.
    Dump,
    /// Run the source of the input, with the events in this mode.
    Run(Mode),
    /// Tell whether the printed text of the input is a serial run of its source, in this mode.
    Replay(Mode),
    /// Give a source and a trace of so many rounds.
    Generate(u16),
    /// Run the source and the trace of so many rounds, with the events in this mode, and sum up.
    Load(Mode, u16),
}

impl Command {
    /// Whether the command reads its input.
    pub fn reads(self) -> bool
        ensures { result ≡ reads self }
    {
        match self {
            Command::Check | Command::Dump | Command::Run(_) | Command::Replay(_) => true,
            Command::Generate(_) | Command::Load(..) => false,
        }
    }
}

/// The command of the words, without the program's name.
pub fn command_of(words: &[String]) -> Option<Command>
    ensures command { result ≡ command_of (map string_bytes words.now) }
    ensures served { IfSome result IsServable }
{
    match words {
        [command] if command.as_str() == "check" => Some(Command::Check),
        [command] if command.as_str() == "dump" => Some(Command::Dump),
        [command, mode] if command.as_str() == "run" => mode_of(mode).map(Command::Run),
        [command, mode] if command.as_str() == "replay" => mode_of(mode).map(Command::Replay),
        [command, rounds] if command.as_str() == "gen" => rounds_of(rounds).map(Command::Generate),
        [command, mode, rounds] if command.as_str() == "load" => loading(mode, rounds),
        _ => None,
    }
}

/// The mode of a word.
fn mode_of(word: &String) -> Option<Mode>
    ensures { result ≡ mode_of (string_bytes word.now) }
{
    match word.as_str() {
        "split" => Some(Mode::Split),
        "buffi" => Some(Mode::Buffi),
        _ => None,
    }
}

/// The greatest number of rounds.
const ROUNDS: u32 = 200;

/// The number of rounds of which the word is the decimal.
fn rounds_of(word: &String) -> Option<u16>
    ensures rounds { result ≡ rounds_of (string_bytes word.now) }
    ensures few { IfSome result (λ rounds. rounds ≤ greatest_rounds) }
{
    let rounds = number_in(0, ROUNDS, word.as_bytes())?;
    Some(rounds as u16)
}

/// The command to load a mode, where the words are a mode and a number of rounds.
fn loading(mode: &String, rounds: &String) -> Option<Command>
    ensures command { result ≡ loading (string_bytes mode.now) (string_bytes rounds.now) }
    ensures served { IfSome result IsServable }
{
    let mode = mode_of(mode)?;
    let rounds = rounds_of(rounds)?;
    Some(Command::Load(mode, rounds))
}
