//! What `load` gives: the summary of a run on a generated input.

ghost use Rattle.coati_gen.specs.Generated.{generated};
ghost use Rattle.std.specs.Prelude.{◌≤◌, IfErr, IfOk};
ghost use Rattle.coati_top.specs.Answer.{ShowsLoad};
ghost use Rattle.coati_top.specs.Refused.{IsUnserved, RefusesRun};
ghost use Rattle.coati_top.specs.Served.{served_board, served_text};
ghost use Rattle.coati_top.specs.Words.{greatest_rounds};

use crate::load_text::load_text;
use crate::refusal::Unserved;
use crate::served::{Served, generated, run_of};
use coati_gen::generated_inputs_are_small;
use coati_word::Mode;
use std::alloc::Global;

/// What `load` gives.
pub(crate) fn loaded(alloc: Global, mode: Mode, rounds: u16) -> Result<Served, Unserved>
    requires { rounds ≤ greatest_rounds }
    ensures served { IfOk result (λ given. ShowsLoad mode rounds (served_text given)
        (served_board given)) }
    ensures unserved { IfErr result (IsUnserved (RefusesRun (generated rounds))) }
{
    generated_inputs_are_small();
    let input = generated(alloc, rounds)?;
    let board = run_of(alloc, mode, &input)?;
    let text = load_text(alloc, mode, rounds, &board)?;
    Ok(Served::Load(text, board))
}
