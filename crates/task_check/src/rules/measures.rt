ghost use Rattle.std.specs.Prelude.{◌≡◌, length, map, flat_map};
ghost use Rattle.task_syntax.specs.Names.{tasks_of_unit};
ghost use Rattle.task_syntax.specs.Saturated.{saturated};
ghost use Rattle.task_check.specs.Bodies.{halves, task_body};
ghost use Rattle.task_check.specs.BodyRules.{read};
ghost use Rattle.task_check.specs.Least.{least};
ghost use Rattle.task_check.specs.Measures.{IsFirstLeastOf, above, first_least, nearer, too_deep_stack, too_long, too_long_places, too_many_locals};

use super::body::Body;
use coati_word::limits::{BODY_COST, LOCALS, OPERANDS};
use task_syntax::{Event, Name, Program, TaskDecl, UnitDecl, code_words, cost, depth, locals};

/// The place of the body's name, where it has more than 32 locals.
#[tactic(auto, using(crate::proofs::Bounds::bounds))]
pub(crate) fn too_many_locals(body: &Body<'_>) -> Option<u32>
    ensures { result ≡ least (too_many_locals (read body.now)) }
{
    above(
        LOCALS as u32,
        locals(body.statements, count_of(body.params)),
        body.at,
    )
}

/// The place of the body's name, where it needs more than 32 operand words.
#[tactic(auto, using(crate::proofs::Bounds::bounds))]
pub(crate) fn too_deep_stack(body: &Body<'_>) -> Option<u32>
    ensures { result ≡ least (too_deep_stack (read body.now)) }
{
    above(OPERANDS as u32, depth(body.statements), body.at)
}

/// How many names there are, as far as 32 bits tell.
fn count_of(names: &[Name]) -> u32
    ensures { result ≡ saturated (length names.now) }
{
    u32::try_from(names.len()).unwrap_or(u32::MAX)
}

/// The place, where the number is above a bound.
fn above(bound: u32, number: u32, at: u32) -> Option<u32>
    ensures { result ≡ least (above bound number at) }
{
    if number > bound { Some(at) } else { None }
}

/// Rule 16: the least name of a task or an event with a body that is too long, and the body's
/// size; the first of two at one place.
#[tactic(auto, using(crate::proofs::SizeParts::IsFirstLeastOf_first_least))]
pub(crate) fn first_too_long(program: &Program) -> Option<(u32, u32)>
    ensures { IsFirstLeastOf (too_long_places program.now) result }
{
    let tasks = too_long_units(program, program.units.as_slice());
    nearer(tasks, too_long_events(program, program.events.as_slice()))
}

fn too_long_units(program: &Program, units: &[UnitDecl]) -> Option<(u32, u32)>
    ensures { result ≡ first_least (flat_map (too_long program.now)
        (map task_body (flat_map tasks_of_unit units.now))) }
{
    let mut found = None;
    for unit in units {
        found = nearer(found, too_long_tasks(program, unit.tasks()));
    }
    found
}

fn too_long_tasks(program: &Program, tasks: &[TaskDecl]) -> Option<(u32, u32)>
    ensures { result ≡ first_least (flat_map (too_long program.now) (map task_body tasks.now)) }
{
    let mut found = None;
    for task in tasks {
        found = nearer(found, too_long(program, &Body::of_task(task)));
    }
    found
}

fn too_long_events(program: &Program, events: &[Event]) -> Option<(u32, u32)>
    ensures { result ≡ first_least (flat_map (too_long program.now) (flat_map halves events.now)) }
{
    let mut found = None;
    for event in events {
        found = nearer(found, too_long_halves(program, event));
    }
    found
}

#[tactic(auto, using(crate::proofs::SizeParts::parts))]
fn too_long_halves(program: &Program, event: &Event) -> Option<(u32, u32)>
    ensures { result ≡ first_least (flat_map (too_long program.now) (halves event.now)) }
{
    let top = too_long(program, &Body::top_of(event));
    nearer(top, too_long(program, &Body::bottom_of(event)))
}

/// The place of the body's name and its size, where it is too long.
#[tactic(auto, using(crate::proofs::Bounds::bounds))]
fn too_long(program: &Program, body: &Body<'_>) -> Option<(u32, u32)>
    ensures { result ≡ first_least (too_long program.now (read body.now)) }
{
    let steps = cost(program, body.statements, body.kind);
    let size = steps.max(code_words(program, body.statements, body.kind));
    if size > BODY_COST {
        Some((body.at, size))
    } else {
        None
    }
}

/// Of two the one at the lesser place, and the former of two at one place.
fn nearer(one: Option<(u32, u32)>, other: Option<(u32, u32)>) -> Option<(u32, u32)>
    ensures { result ≡ nearer one other }
{
    match (one, other) {
        (Some(one), Some(other)) => Some(if other.0 < one.0 { other } else { one }),
        (None, other) => other,
        (one, None) => one,
    }
}
