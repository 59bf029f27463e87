//! The program: the call over standard input and standard output.
#![tactic(auto)]

use coati_explain::explain;
use coati_io::{StdSink, StdSource};
use std::io;
use std::process::ExitCode;

#[cfg(test)]
mod tests;

fn main(rt: HostRuntime) -> ExitCode {
    let mut input = StdSource::new(rt.reader());
    let mut output = StdSink::new(io::writer(&rt));
    ExitCode::from(explain(rt.alloc(), &mut input, &mut output).code())
}
