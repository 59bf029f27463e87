ghost use Rattle.std.specs.Prelude.{◌≡◌};
ghost use Rattle.coati_pace.specs.Effort.{IsShape, shape_of as shape_of_program};

use crate::Shape;
use task_check::Checked;
use task_cost::bounds;

/// How large the device of a program is.
pub fn shape_of(checked: &Checked) -> Shape
    ensures shape { result ≡ shape_of_program checked.now }
    ensures limits { IsShape result }
{
    // That the program is accepted, which bounds its costs, is known from this call.
    let _program = checked.program();
    Shape {
        words: u32::from(checked.words()),
        slots: u32::from(checked.buffer()),
        attempt: bounds(checked).c,
    }
}
