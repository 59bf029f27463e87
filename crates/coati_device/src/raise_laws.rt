//! What a raised posting keeps of a device.

ghost use Rattle.coati_device.specs.Laws.{RaisesKeepSound};

use crate::laws::ticks_keep_devices;
use buffi_sets::laws::handlers_read_behind_held_events;
use codegen::laws::accepted_programs_compute_their_courses;
use event_buffer::laws::{accepts_add_the_newest, parts_fill_the_slot, the_tail_entry_is_free};
use serial_log::laws::{histories_go_on, marks_join_up, turns_go_on};
use task_buffer::laws::stores_set_the_value;
use task_syntax::laws::{accesses_join_up, courses_under_way_go_on, last_writes_tell_the_store};
use word_code::laws::{following_goes_on, instructions_are_their_words};

/// A raised posting keeps what a device keeps, and its handler makes so many steps at most.
pub fn raises_keep_devices()
    ensures { RaisesKeepSound }
{
    accesses_join_up();
    courses_under_way_go_on();
    last_writes_tell_the_store();
    following_goes_on();
    instructions_are_their_words();
    accepted_programs_compute_their_courses();
    stores_set_the_value();
    handlers_read_behind_held_events();
    parts_fill_the_slot();
    the_tail_entry_is_free();
    accepts_add_the_newest();
    histories_go_on();
    turns_go_on();
    marks_join_up();
    ticks_keep_devices();
}
