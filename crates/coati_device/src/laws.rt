//! What follows from the definitions: each function's contract is a law, and its body does
//! nothing.

ghost use Rattle.coati_device.specs.Laws.{FreshDevicesAreSound, RowsAcceptNone, RowsKeepEvents, RowsKeepFit, RowsKeepLegal, RowsKeepMode, RowsKeepTurns, RowsLeaveTime, RowsTakeOneRoom, RowsTellNoBoot, RunningMachinesCanRun, SoundDevicesAreToldWell, StepsKeepSound, TicksKeepRoom, TicksKeepSound};

use buffi_sets::laws::{
    doom_writes_keep, flag_writes_set_one_flag, undo_writes_keep, unflag_writes_take_one_back,
};
use codegen::laws::{accepted_programs_compute_their_courses, bodies_stand_by_number};
use event_buffer::laws::commits_take_the_oldest;
use nv_memory::laws::blank_images_are_sound;
use serial_log::laws::{
    histories_go_on, legal_histories_keep_each_fact, marks_join_up, records_keep_readings,
    turns_go_on,
};
use task_buffer::laws::stores_set_the_value;
use task_syntax::laws::{
    accesses_join_up, courses_under_way_go_on, last_writes_tell_the_store, shared_reads_decide,
    written_words_are_told,
};
use word_code::laws::following_goes_on;

/// After each row memory and the attempt fit where the history leads, in the same mode, and a
/// machine that runs can make its next step.
pub fn rows_keep_fit()
    ensures fit { RowsKeepFit }
    ensures mode { RowsKeepMode }
    ensures runs { RunningMachinesCanRun }
{
    accesses_join_up();
    last_writes_tell_the_store();
    courses_under_way_go_on();
    following_goes_on();
    bodies_stand_by_number();
    accepted_programs_compute_their_courses();
    stores_set_the_value();
    commits_take_the_oldest();
    written_words_are_told();
    shared_reads_decide();
    flag_writes_set_one_flag();
    unflag_writes_take_one_back();
    doom_writes_keep();
    undo_writes_keep();
}

/// After each row the held events are what their logs and kept readings say.
pub fn rows_keep_events()
    ensures { RowsKeepEvents }
{
    following_goes_on();
    commits_take_the_oldest();
}

/// The marks of each row are legal, and tasks and events take turns. A row tells no boot, accepts
/// no posting, and takes the room of one step.
pub fn rows_keep_histories()
    ensures legal { RowsKeepLegal }
    ensures turns { RowsKeepTurns }
    ensures accepted { RowsAcceptNone }
    ensures time { RowsLeaveTime }
    ensures boots { RowsTellNoBoot }
    ensures room { RowsTakeOneRoom }
{
    histories_go_on();
    turns_go_on();
    marks_join_up();
    records_keep_readings();
    accesses_join_up();
    last_writes_tell_the_store();
    following_goes_on();
    written_words_are_told();
}

/// The time behind a row keeps what a device keeps.
pub fn ticks_keep_devices()
    ensures sound { TicksKeepSound }
    ensures room { TicksKeepRoom }
{
    histories_go_on();
    turns_go_on();
    marks_join_up();
}

/// A step keeps what a device keeps.
pub fn steps_keep_devices()
    ensures { StepsKeepSound }
{
    rows_keep_fit();
    rows_keep_events();
    rows_keep_histories();
    ticks_keep_devices();
}

/// A device before its first step keeps it, and where it is kept the history is legal, with its
/// boots at the ends of periods.
pub fn devices_are_sound()
    ensures fresh { FreshDevicesAreSound }
    ensures told { SoundDevicesAreToldWell }
{
    blank_images_are_sound();
    legal_histories_keep_each_fact();
}
