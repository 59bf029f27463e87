ghost use Rattle.std.specs.Prelude.{◌≡◌, ◌≤◌};
ghost use Rattle.task_cost.specs.Bodies.{cost_of};

use task_check::Checked;
use task_syntax::{BodyId, Kind, cost};

/// The cost of a body of the program, in machine steps; 0 where the program has no body of this
/// number.
pub fn body_cost(checked: &Checked, body: BodyId) -> u32
    ensures cost { result ≡ cost_of checked.now body }
    ensures most { result ≤ 50000 }
{
    let program = checked.program();
    match body {
        BodyId::Task(number) if number < checked.tasks() => {
            let task = checked.task(number);
            cost(program, task.body.as_slice(), Kind::Task)
        }
        BodyId::Top(number) if number < checked.events() => {
            let event = checked.event(number);
            cost(program, event.top.as_slice(), Kind::Top)
        }
        BodyId::Bottom(number) if number < checked.events() => {
            let event = checked.event(number);
            cost(program, event.bottom.as_slice(), Kind::Bottom)
        }
        _ => 0,
    }
}
