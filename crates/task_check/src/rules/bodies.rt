ghost use Rattle.std.specs.Prelude.{◌≡◌, flat_map, map};
ghost use Rattle.task_syntax.specs.Names.{tasks_of_unit};
ghost use Rattle.task_check.specs.Bodies.{bodies, halves, task_body};
ghost use Rattle.task_check.specs.BodyRules.{broken_in};
ghost use Rattle.task_check.specs.Endings.{early_ending_places, no_ending_places};
ghost use Rattle.task_check.specs.Least.{IsLeastOf, least};
ghost use Rattle.task_check.specs.Loops.{loop_assigned_places};
ghost use Rattle.task_check.specs.Measures.{too_deep_stack_places, too_many_locals_places};

use super::body::Body;
use super::body_rule::BodyRule;
use crate::least::{least_among, lesser};
use task_syntax::{Event, Program, TaskDecl, UnitDecl};

/// Rule 8: the least name of a task or an event whose task or top half doesn't end.
#[tactic(auto, using(crate::proofs::LeastParts::IsLeastOf_least))]
pub(crate) fn least_without_ending(program: &Program) -> Option<u32>
    ensures { IsLeastOf (no_ending_places program.now) result }
{
    least_in_bodies(BodyRule::NoEnding, program)
}

/// Rule 9: the least ending that isn't last in a body of its kind.
#[tactic(auto, using(crate::proofs::LeastParts::IsLeastOf_least))]
pub(crate) fn least_early_ending(program: &Program) -> Option<u32>
    ensures { IsLeastOf (early_ending_places program.now) result }
{
    least_in_bodies(BodyRule::EarlyEnding, program)
}

/// Rule 13: the least assigned name that is an enclosing loop's.
#[tactic(auto, using(crate::proofs::LeastParts::IsLeastOf_least))]
pub(crate) fn least_loop_assigned(program: &Program) -> Option<u32>
    ensures { IsLeastOf (loop_assigned_places program.now) result }
{
    least_in_bodies(BodyRule::LoopAssigned, program)
}

/// Rule 14: the least name of a task or an event with more than 32 locals in a body.
#[tactic(auto, using(crate::proofs::LeastParts::IsLeastOf_least))]
pub(crate) fn least_with_too_many_locals(program: &Program) -> Option<u32>
    ensures { IsLeastOf (too_many_locals_places program.now) result }
{
    least_in_bodies(BodyRule::TooManyLocals, program)
}

/// Rule 15: the least name of a task or an event with a body that needs more than 32 operand
/// words.
#[tactic(auto, using(crate::proofs::LeastParts::IsLeastOf_least))]
pub(crate) fn least_with_too_deep_stack(program: &Program) -> Option<u32>
    ensures { IsLeastOf (too_deep_stack_places program.now) result }
{
    least_in_bodies(BodyRule::TooDeepStack, program)
}

/// The least place where a body breaks the rule.
#[tactic(auto, using(crate::proofs::LeastParts::parts))]
pub(crate) fn least_in_bodies(rule: BodyRule, program: &Program) -> Option<u32>
    ensures { result ≡ least (flat_map (broken_in rule) (bodies program.now)) }
{
    let tasks = least_in_units(rule, program.units.as_slice());
    lesser(tasks, least_in_events(rule, program.events.as_slice()))
}

fn least_in_units(rule: BodyRule, units: &[UnitDecl]) -> Option<u32>
    ensures { result ≡ least (flat_map (broken_in rule)
        (map task_body (flat_map tasks_of_unit units.now))) }
{
    least_among(units, |unit| least_in_tasks(rule, unit.tasks()))
}

fn least_in_tasks(rule: BodyRule, tasks: &[TaskDecl]) -> Option<u32>
    ensures { result ≡ least (flat_map (broken_in rule) (map task_body tasks.now)) }
{
    least_among(tasks, |task| rule.least_in(&Body::of_task(task)))
}

fn least_in_events(rule: BodyRule, events: &[Event]) -> Option<u32>
    ensures { result ≡ least (flat_map (broken_in rule) (flat_map halves events.now)) }
{
    least_among(events, |event| least_in_halves(rule, event))
}

#[tactic(auto, using(crate::proofs::LeastParts::parts))]
fn least_in_halves(rule: BodyRule, event: &Event) -> Option<u32>
    ensures { result ≡ least (flat_map (broken_in rule) (halves event.now)) }
{
    let top = rule.least_in(&Body::top_of(event));
    lesser(top, rule.least_in(&Body::bottom_of(event)))
}
