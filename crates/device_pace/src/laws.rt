//! What follows from the definitions: each function's contract is a law, and its body does
//! nothing.

ghost use Rattle.device_pace.specs.Laws.{ClosingKeepsPace, CutsAreActs, DevicesAreInRange, DevicesNeedFew, DevicesStandForTheirHistory, FreshDevicesArePaced, PacedDevicesEndTasks, RaisesKeepPace, RowsAreActs, StepsKeepPace};

use buffi_sets::laws::{flag_writes_set_one_flag, unflag_writes_take_one_back};
use coati_device::laws::{devices_are_sound, rows_keep_fit};
use coati_pace::laws::{histories_keep_pace, shapes_are_of_programs};
use task_buffer::laws::stores_set_the_value;
use task_syntax::laws::{accesses_join_up, courses_under_way_go_on};
use word_code::laws::following_goes_on;

/// Each part of what a device has to do is in its range, and where it is halted or holds nothing
/// its history shows so.
pub fn devices_are_in_range()
    ensures ranges { DevicesAreInRange }
    ensures stands { DevicesStandForTheirHistory }
{}

/// Each row with its time is an act, and so is the boot where the power is cut behind it.
pub fn rows_are_acts()
    ensures rows { RowsAreActs }
    ensures cuts { CutsAreActs }
{
    accesses_join_up();
    courses_under_way_go_on();
    following_goes_on();
    stores_set_the_value();
    flag_writes_set_one_flag();
    unflag_writes_take_one_back();
    rows_keep_fit();
}

/// A step leaves a device paced.
pub fn steps_keep_pace()
    ensures { StepsKeepPace }
{
    rows_are_acts();
    rows_keep_fit();
}

/// So does a raised posting, and so does the end of a run.
pub fn raises_keep_pace()
    ensures raises { RaisesKeepPace }
    ensures closing { ClosingKeepsPace }
{}

/// A device before its first step is paced. Where a paced one is left alone for a power period
/// that suffices, a task ends in it, or nothing is left to do behind it. It needs no more than
/// that, and nothing exactly where its memory is idle.
pub fn paced_devices_end_tasks()
    ensures fresh { FreshDevicesArePaced }
    ensures ends { PacedDevicesEndTasks }
    ensures few { DevicesNeedFew }
{
    devices_are_sound();
    histories_keep_pace();
    shapes_are_of_programs();
}
