ghost use Rattle.std.specs.Prelude.{◌≡◌, ◌≤◌};
ghost use Rattle.task_cost.specs.Limits.{bounds_of, greatest_cost};

use crate::Bounds;
use crate::longest::{longest_event, longest_task};
use task_check::Checked;

/// The bounds of the program, in machine steps.
#[tactic(auto, using(crate::proofs::Products::period_within))]
pub fn bounds(checked: &Checked) -> Bounds
    ensures { result ≡ bounds_of checked.now }
{
    let c = 1 + greatest_cost(checked);
    let a = 8 * u32::from(checked.words()) + 20;
    let h = c + a;
    let b = (u32::from(checked.buffer()) + 3) * h;
    Bounds { c, a, b, h }
}

/// The greatest cost of a task or an event, in machine steps. No body costs more than 50,000, and
/// an event has two.
fn greatest_cost(checked: &Checked) -> u32
    ensures cost { result ≡ greatest_cost checked.now }
    ensures most { result ≤ 100000 }
{
    let program = checked.program();
    longest_task(program).max(longest_event(program))
}
