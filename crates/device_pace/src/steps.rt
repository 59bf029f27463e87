ghost use Rattle.std.specs.Prelude.{◌≡◌};
ghost use Rattle.coati_device.specs.Laws.{Fits};
ghost use Rattle.coati_pace.specs.Effort.{shape_of as shape_of_program};
ghost use Rattle.coati_pace.specs.Need.{need as need_of};
ghost use Rattle.device_pace.specs.Effort.{effort_of as effort_of_device};

use crate::effort::effort_of;
use coati_device::Device;
use coati_pace::{need as steps_needed, shape_of};
use coati_word::Mode;
use task_check::Checked;

/// So many steps of a device of the program suffice until its next task ends or nothing is left to
/// do, where no posting is raised and no power is cut.
#[tactic(auto, using(crate::proofs::Ranges::in_range))]
pub fn need(checked: &Checked, mode: Mode, device: &Device) -> u32
    requires fits { Fits checked.now device.now }
    ensures need { result
        ≡ need_of (shape_of_program checked.now) mode (effort_of_device device.now) }
{
    steps_needed(shape_of(checked), mode, effort_of(device))
}
