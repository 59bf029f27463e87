ghost use Rattle.std.specs.Prelude.{◌≡◌, map};
ghost use Rattle.task_syntax.specs.Depth.{greatest};
ghost use Rattle.task_syntax.specs.Names.{tasks_of_unit};
ghost use Rattle.task_syntax.specs.Saturated.{saturated};
ghost use Rattle.task_cost.specs.Bodies.{event_cost, task_cost};
ghost use Rattle.task_cost.specs.Limits.{event_costs, task_costs};

use task_syntax::{Event, Kind, Program, TaskDecl, UnitDecl, cost};

/// The greatest cost of a task, in machine steps, up to the greatest u32.
pub(crate) fn longest_task(program: &Program) -> u32
    ensures { result ≡ saturated (greatest (task_costs program.now)) }
{
    let mut longest = 0;
    for unit in program.units.as_slice() {
        longest = longest.max(longest_of(program, unit.tasks()));
    }
    longest
}

/// The greatest cost of one of these tasks.
fn longest_of(program: &Program, tasks: &[TaskDecl]) -> u32
    ensures { result ≡ saturated (greatest (map (task_cost program.now) tasks.now)) }
{
    let mut longest = 0;
    for task in tasks {
        longest = longest.max(cost(program, task.body.as_slice(), Kind::Task));
    }
    longest
}

/// The greatest cost of an event, in machine steps, up to the greatest u32.
pub(crate) fn longest_event(program: &Program) -> u32
    ensures { result ≡ saturated (greatest (event_costs program.now)) }
{
    let mut longest = 0;
    for event in program.events.as_slice() {
        longest = longest.max(halves_cost(program, event));
    }
    longest
}

/// The cost of both halves of an event, up to the greatest u32.
fn halves_cost(program: &Program, event: &Event) -> u32
    ensures { result ≡ saturated (event_cost program.now event.now) }
{
    let top = cost(program, event.top.as_slice(), Kind::Top);
    top.saturating_add(cost(program, event.bottom.as_slice(), Kind::Bottom))
}
