//! The rows of the executor's table for the oldest held posting in mode `buffi`: its bottom half
//! ran in its handler already, and the event is committed before the tasks go on. Where it writes
//! what the unit under way has read, the unit is given up first.

ghost use Rattle.std.specs.Prelude.{◌≡◌, ◌+◌, ◌^◌, ◌<◌, ◌≤◌};
ghost use Rattle.buffi_sets.specs.Conflict.{HasNoConflict, IsConflict};
ghost use Rattle.nv_memory.specs.InRange.{InRange};
ghost use Rattle.nv_memory.specs.Ring.{held_count, position_after};
ghost use Rattle.nv_memory.specs.Seats.{Memory};
ghost use Rattle.nv_memory.specs.State.{state};
ghost use Rattle.nv_memory.specs.Words.{head, head_next};
ghost use Rattle.task_syntax.specs.declared.program.Program.{Program};
ghost use Rattle.word_code.specs.Code.{Bodies};
ghost use Rattle.coati_device.specs.Rows.{Drains, DrainsFreely, IsRow, abort_change, has_attempt, oldest_posting, tasks_given_up};
ghost use Rattle.coati_device.specs.TaskView.{IsAfter};
ghost use Rattle.coati_board.specs.Ready.{HasRoomToDrain, HasRoomToEnd};

use crate::commit::commit_posting;
use crate::phases::choose_next;
use crate::units::unit_of;
use crate::writes::put;
use buffi_sets::{conflict, doom_write};
use coati_device::Device;
use commit_log::{Marker, mark_write, prepare_event};
use event_buffer::held;
use nv_memory::Image;
use serial_log::{AbortOf, Mark, MarkKind};
use task_check::Checked;

/// The oldest held event is on its way to its commit. `attempt` says whether the attempt has ended
/// and its readings count.
pub fn drain(checked: &Checked, device: &mut Device, attempt: bool)
    requires range { InRange (state device.old.image) }
    requires drains { Drains device.old }
    requires attempt { attempt ≡ has_attempt device.old.phase }
    requires end { HasRoomToEnd device.old }
    requires room { HasRoomToDrain device.old }
    requires few { held_count (state device.old.image) ≤ device.old.accepted }
    ensures { (code : Bodies) → IsRow checked.now code device.old device.new }
{
    match conflict(&device.image, attempt) {
        Some(word) => abort(checked, device, attempt, word),
        None => drain_freely(device),
    }
}

// The unit under way is given up for the event, with which it clashes on a word. An open
// transaction is to be undone; a lone attempt has written nothing that stays.
fn abort(checked: &Checked, device: &mut Device, attempt: bool, word: u16)
    requires range { InRange (state device.old.image) }
    requires drains { Drains device.old }
    requires attempt { attempt ≡ has_attempt device.old.phase }
    requires conflict { IsConflict (state device.old.image) attempt word }
    requires end { HasRoomToEnd device.old }
    requires few { held_count (state device.old.image) ≤ device.old.accepted }
    ensures { (code : Bodies) → IsRow checked.now code device.old device.new }
{
    let task = device.image.current();
    let aborted = AbortOf {
        unit: unit_of(checked.tx_of_task(task), task),
        tasks: tasks_given_up(device, attempt),
        posting: oldest_posting(device),
        word,
    };
    doom(&mut device.image);
    device.history.push(Mark {
        at: device.clock + 1,
        kind: MarkKind::Abort(aborted),
    });
    device.unit.clear();
    device.finished = 0;
    device.attempt.clear();
    choose_next(&mut device.phase);
}

// How many tasks of the unit had run.
fn tasks_given_up(device: &Device, attempt: bool) -> u32
    requires attempt { attempt ≡ has_attempt device.now.phase }
    requires few { device.now.finished + 1 < 2 ^ 32 }
    ensures { result ≡ tasks_given_up device.now }
{
    if attempt {
        device.finished + 1
    } else {
        device.finished
    }
}

// An open transaction is marked as aborted.
fn doom(image: &mut Image)
    ensures { IsAfter image.old (abort_change (state image.old)) image.new }
{
    if image.is_open() {
        put(image, doom_write());
    }
}

// The position behind the head is written where it isn't there yet. Then the event is committed.
fn drain_freely(device: &mut Device)
    requires range { InRange (state device.old.image) }
    requires drains { DrainsFreely device.old }
    requires end { HasRoomToEnd device.old }
    requires room { HasRoomToDrain device.old }
    requires few { held_count (state device.old.image) ≤ device.old.accepted }
    ensures { (program : Program) (code : Bodies) → IsRow program code device.old device.new }
{
    match prepare_event(&device.image) {
        Some(write) => put(&mut device.image, write),
        None => commit_event(device),
    }
}

// The event is committed, and its record told with what it read in its handler.
fn commit_event(device: &mut Device)
    requires range { InRange (state device.old.image) }
    requires drains { DrainsFreely device.old }
    requires prepared { head_next (state device.old.image)
        ≡ position_after device.old.image.k (head (state device.old.image)) }
    requires end { HasRoomToEnd device.old }
    requires room { HasRoomToDrain device.old }
    requires few { held_count (state device.old.image) ≤ device.old.accepted }
    ensures { (program : Program) (code : Bodies) → IsRow program code device.old device.new }
{
    let event = device
        .image
        .event(device.image.layout().slot(device.image.head()));
    let posting = oldest_posting(device);
    put(&mut device.image, mark_write(Marker::Event));
    commit_posting(
        &mut device.history,
        event,
        posting,
        device.waiting.first(),
        device.clock + 1,
    );
    device.waiting.release();
}

// The number of the oldest held posting.
fn oldest_posting(device: &Device) -> u32
    requires range { InRange (state device.now.image) }
    requires some { 0 < held_count (state device.now.image) }
    requires few { held_count (state device.now.image) ≤ device.now.accepted }
    ensures { result ≡ oldest_posting device.now }
{
    device.accepted - held(&device.image) as u32 + 1
}
