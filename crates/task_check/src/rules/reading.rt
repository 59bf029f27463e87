ghost use Rattle.task_check.specs.Accepted.{IsFound};

use super::bodies::{
    least_early_ending, least_loop_assigned, least_with_too_deep_stack, least_with_too_many_locals,
    least_without_ending,
};
use super::gives::least_misgiven;
use super::measures::first_too_long;
use super::tops::least_variable_in_top;
use super::transitions::least_into_tx;
use crate::Rule;
use task_syntax::Program;

/// The first broken rule of 8 to 13, those on endings, transitions, top halves, messages and
/// loops, at its least place.
pub(crate) fn endings_and_shapes(program: &Program) -> Option<(Rule, u32)>
    ensures { IsFound program.now 8 14 result }
{
    if let Some(at) = least_without_ending(program) {
        return Some((Rule::NoEnding, at));
    }
    if let Some(at) = least_early_ending(program) {
        return Some((Rule::EarlyEnding, at));
    }
    if let Some(at) = least_into_tx(program) {
        return Some((Rule::IntoTx, at));
    }
    if let Some(at) = least_variable_in_top(program) {
        return Some((Rule::TopReadsNv, at));
    }
    if let Some(at) = least_misgiven(program) {
        return Some((Rule::GiveShape, at));
    }
    if let Some(at) = least_loop_assigned(program) {
        return Some((Rule::LoopAssigned, at));
    }
    None
}

/// The first broken rule of 14 to 16, those on how large a body may be, at its least place.
pub(crate) fn measures(program: &Program) -> Option<(Rule, u32)>
    ensures { IsFound program.now 14 17 result }
{
    if let Some(at) = least_with_too_many_locals(program) {
        return Some((Rule::TooManyLocals, at));
    }
    if let Some(at) = least_with_too_deep_stack(program) {
        return Some((Rule::TooDeepStack, at));
    }
    if let Some((at, size)) = first_too_long(program) {
        return Some((Rule::TooLong(size), at));
    }
    None
}
