mod bodies;
mod evaluator;

use coati_top::spelled_programs_are_well_formed;
use std::alloc::Global;
use std::process::Abort;
use std::test::Fail;
use task_check::{Checked, check};
use task_lex::lex;
use task_parse::parse;

/// The program of a source.
fn accepted(rt: &impl Abort, alloc: Global, source: &[u8]) -> Result<Checked, Fail> {
    spelled_programs_are_well_formed();
    assert!(rt; source.len() < 1000);
    let tokens = lex(alloc, source)?;
    assert!(rt; tokens.len() < 1000);
    Ok(check(alloc, parse(alloc, source, &tokens)?)?)
}
