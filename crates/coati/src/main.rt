//! The program: the top call over standard input and standard output.
#![tactic(auto)]

use coati_io::{StdSink, StdSource};
use coati_top::{Status, coati_still};
use coati_word::OutOfMemory;
use std::io::ErrorKind;
use std::process::ExitCode;
use std::rt::Env;
use std::{env, io};

#[cfg(test)]
mod tests;

/// The words of the command line without the program's name; none where one of them is no text,
/// which names no command.
fn words(rt: &(impl Env + AllocGlobal)) -> Result<Vec<String>, OutOfMemory> {
    let mut words = Vec::new(rt.alloc());
    match env::args(rt) {
        Ok(args) => {
            for word in args.skip(1) {
                words.push(word)?;
            }
        }
        Err(e) if e.kind() == ErrorKind::OutOfMemory => return Err(OutOfMemory),
        Err(_) => {}
    }
    Ok(words)
}

fn main(rt: HostRuntime) -> ExitCode {
    let status = match words(&rt) {
        Ok(words) => {
            let mut input = StdSource::new(rt.reader());
            let mut output = StdSink::new(io::writer(&rt));
            coati_still(rt.alloc(), &words, &mut input, &mut output).status
        }
        Err(OutOfMemory) => Status::OutOfMemory,
    };
    ExitCode::from(status.code())
}
