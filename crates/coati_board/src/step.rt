ghost use Rattle.std.specs.Prelude.{◌≡◌};
ghost use Rattle.codegen.specs.Bodies.{program_code};
ghost use Rattle.coati_device.specs.Rows.{IsStepOf, steps_before_end};
ghost use Rattle.coati_board.specs.Ready.{IsReady};

use crate::rows::act;
use crate::tick::tick;
use coati_device::Device;
use task_check::Checked;
use word_code::Code;

/// One step of the executor: a row of its table, and its time. `most` is how many steps a body
/// makes at most before the one that ends it.
pub fn advance(checked: &Checked, code: &Code, most: u32, periods: &[u32], device: &mut Device)
    requires code { code.now ≡ program_code checked.now }
    requires most { most ≡ steps_before_end checked.now }
    requires ready { IsReady checked.now periods.now device.old }
    ensures { IsStepOf checked.now code.now periods.now device.old device.new }
{
    act(checked, code, most, device);
    device.steps += 1;
    tick(periods, device);
}
