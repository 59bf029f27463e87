ghost use Rattle.std.specs.Prelude.{◌≡◌, ◌+◌, ◌^◌, ◌<◌};
ghost use Rattle.coati_device.specs.Ticks.{cut, passed, ticked};

use crate::board::period;
use crate::phases::choose_next;
use coati_device::Device;
use serial_log::{Mark, MarkKind};

/// A machine step's time. Where its power period is over then, the power is cut and comes back.
pub fn tick(periods: &[u32], device: &mut Device)
    requires time { device.old.clock + 1 < 2 ^ 32 }
    requires spare { 0 < device.old.spare }
    requires boots { device.old.boots + 1 < 2 ^ 32 }
    requires mark { device.old.until ≡ 1 → 0 < device.old.history.mark_room }
    ensures { device.new ≡ ticked periods.now device.old }
{
    if device.until == 1 {
        cut(periods, device);
    } else {
        pass(device);
    }
}

/// The time of a step without a cut.
pub(crate) fn pass(device: &mut Device)
    requires time { device.old.clock + 1 < 2 ^ 32 }
    requires spare { 0 < device.old.spare }
    ensures { device.new ≡ passed device.old }
{
    device.clock += 1;
    device.until = device.until.saturating_sub(1);
    device.spare -= 1;
}

// The time of a step, and a cut behind it.
fn cut(periods: &[u32], device: &mut Device)
    requires time { device.old.clock + 1 < 2 ^ 32 }
    requires spare { 0 < device.old.spare }
    requires boots { device.old.boots + 1 < 2 ^ 32 }
    requires mark { 0 < device.old.history.mark_room }
    ensures { device.new ≡ cut periods.now device.old }
{
    device.clock += 1;
    device.spare -= 1;
    device.boots += 1;
    device.until = period(periods, device.boots);
    choose_next(&mut device.phase);
    device.history.push(Mark {
        at: device.clock,
        kind: MarkKind::Boot(device.boots),
    });
}
