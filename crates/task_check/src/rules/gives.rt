ghost use Rattle.std.specs.Prelude.{◌≡◌, flat_map, length};
ghost use Rattle.task_check.specs.Gives.{fifth, give_shape, give_shape_places, misgiven_in, misgiven_step};
ghost use Rattle.task_check.specs.Least.{IsLeastOf, least};
ghost use Rattle.task_check.specs.Within.{bare};

use crate::least::{least_among, lesser};
use crate::within::least_within;
use coati_word::limits::MESSAGE_WORDS;
use task_syntax::{Event, Name, Program, Stmt};

/// Rule 12: the least fifth parameter of a bottom half, or `give` of another count of words than
/// the parameters.
#[tactic(auto, using(crate::proofs::LeastParts::IsLeastOf_least))]
pub(crate) fn least_misgiven(program: &Program) -> Option<u32>
    ensures { IsLeastOf (give_shape_places program.now) result }
{
    least_in_events(program.events.as_slice())
}

fn least_in_events(events: &[Event]) -> Option<u32>
    ensures { result ≡ least (flat_map give_shape events.now) }
{
    least_among(events, least_in_event)
}

#[tactic(auto, using(crate::proofs::LeastParts::parts))]
fn least_in_event(event: &Event) -> Option<u32>
    ensures { result ≡ least (give_shape event.now) }
{
    let params = event.params.as_slice();
    lesser(
        fifth(params),
        misgiven_in(event.top.as_slice(), params.len()),
    )
}

/// The fifth name, where there are so many.
fn fifth(params: &[Name]) -> Option<u32>
    ensures { result ≡ least (fifth params.now) }
{
    match params.get(MESSAGE_WORDS) {
        Some(name) => Some(name.at),
        None => None,
    }
}

/// The least `give` of another count of words in a block.
fn misgiven_in(block: &[Stmt], count: usize) -> Option<u32>
    ensures { result ≡ least (misgiven_in count block.now) }
{
    least_within(block, &|statement| misgiven(statement, count))
}

/// The place of a `give` of another count of words.
fn misgiven(statement: &Stmt, count: usize) -> Option<u32>
    ensures { result ≡ least (misgiven_step count (bare statement.now)) }
{
    match statement {
        Stmt::Give(values, at) => (values.len() != count).then_some(*at),
        _ => None,
    }
}
