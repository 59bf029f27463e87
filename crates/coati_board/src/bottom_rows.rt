//! The rows of the executor's table for the oldest held posting: its bottom half runs between the
//! units, and is committed.

ghost use Rattle.std.specs.Prelude.{◌≡◌, ◌+◌, ◌<◌, ◌≤◌, length, take};
ghost use Rattle.nv_memory.specs.InRange.{InRange};
ghost use Rattle.nv_memory.specs.Logs.{log_length};
ghost use Rattle.nv_memory.specs.Ring.{held_count, position_after};
ghost use Rattle.nv_memory.specs.StandsFor.{head_slot};
ghost use Rattle.nv_memory.specs.State.{state};
ghost use Rattle.nv_memory.specs.Words.{head, head_next};
ghost use Rattle.bottom_half.specs.Jobs.{job_in};
ghost use Rattle.task_syntax.specs.declared.body.BodyId.TheVariants as body;
ghost use Rattle.task_syntax.specs.declared.program.Program.{Program};
ghost use Rattle.word_code.specs.Code.{Bodies, HasBody};
ghost use Rattle.coati_device.specs.BottomView.{head_log};
ghost use Rattle.coati_device.specs.Rows.{ChoosesEvent, EndsBottom, IsClear, IsRow, head_message, params_of, steps_before_end};
ghost use Rattle.coati_board.specs.Ready.{HasRoomToEnd, RunsTheBottomHalf};

use crate::bottom_view::BottomView;
use crate::commit::commit_posting;
use crate::phases::{choose_next, end_bottom_next, run_next};
use crate::writes::put;
use bottom_half::Job;
use coati_device::{Device, Phase};
use commit_log::{Marker, mark_write, prepare_event};
use event_buffer::held;
use nv_memory::Log;
use task_buffer::reset_write;
use task_check::Checked;
use task_syntax::BodyId;
use word_code::Code;
use word_cpu::{Cpu, Turn};

/// The bottom half of the oldest held posting starts, once the log that one before has left in its
/// entry is empty.
pub fn choose_event(checked: &Checked, code: &Code, most: u32, device: &mut Device, job: Job)
    requires most { most ≡ steps_before_end checked.now }
    requires range { InRange (state device.old.image) }
    requires chooses { ChoosesEvent device.old }
    requires job { job ≡ job_in (state device.old.image) (head_slot (state device.old.image)) }
    requires event { job.event < length checked.now.events }
    requires body { HasBody code.now (body.Bottom job.event) }
    ensures { IsRow checked.now code.now device.old device.new }
{
    match reset_write(&device.image, Log::Entry(job.slot)) {
        Some(write) => put(&mut device.image, write),
        None => start(checked, code, most, device, job),
    }
}

// The bottom half starts with an empty attempt.
fn start(checked: &Checked, code: &Code, most: u32, device: &mut Device, job: Job)
    requires most { most ≡ steps_before_end checked.now }
    requires chooses { ChoosesEvent device.old }
    requires job { job ≡ job_in (state device.old.image) (head_slot (state device.old.image)) }
    requires event { job.event < length checked.now.events }
    requires body { HasBody code.now (body.Bottom job.event) }
    requires empty { log_length (state device.old.image) (head_log (state device.old.image)) ≡ 0 }
    ensures { IsRow checked.now code.now device.old device.new }
{
    device.attempt.clear();
    let cpu = Cpu::start(code, BodyId::Bottom(job.event), message(checked, &job));
    run_next(&mut device.phase, cpu, most);
}

// The message of a posting: the first words of its entry, as many as its event has parameters.
fn message<'a>(checked: &Checked, job: &'a Job) -> &'a [u16]
    requires { job.now.event < length checked.now.events }
    ensures words { result.now ≡ take (params_of checked.now job.now.event) job.now.message }
    ensures few { length result.now ≤ 4 }
{
    let _program = checked.program();
    let count = checked.event(job.event).params.as_slice().len();
    &job.message[..count]
}

/// One step of the machine in the bottom half.
pub fn run_bottom_half(code: &Code, device: &mut Device)
    requires range { InRange (state device.old.image) }
    requires clear { IsClear (state device.old.image) }
    requires runs { RunsTheBottomHalf code.now device.old }
    requires room { 0 < device.old.attempt.room }
    ensures { (program : Program) → IsRow program code.now device.old device.new }
{
    let Phase::Run(cpu, left) = &mut device.phase else {
        unreachable!()
    };
    *left = left.saturating_sub(1);
    let mut view = BottomView {
        image: &mut device.image,
    };
    match cpu.step(code, &mut view) {
        Turn::Went(Some(reading)) => device.attempt.push(reading),
        Turn::Went(None) => {}
        Turn::Storing => {}
        Turn::Ended(_ending) => end_bottom_next(&mut device.phase),
    }
}

/// The position behind the head is written where it isn't there yet. Then the event is committed.
pub fn end_bottom_half(device: &mut Device)
    requires range { InRange (state device.old.image) }
    requires ends { EndsBottom device.old }
    requires room { HasRoomToEnd device.old }
    requires few { held_count (state device.old.image) ≤ device.old.accepted }
    ensures { (program : Program) (code : Bodies) → IsRow program code device.old device.new }
{
    match prepare_event(&device.image) {
        Some(write) => put(&mut device.image, write),
        None => commit_event(device),
    }
}

// The event is committed, and its record told: its posting is as far behind the last accepted one
// as postings are held.
fn commit_event(device: &mut Device)
    requires range { InRange (state device.old.image) }
    requires ends { EndsBottom device.old }
    requires prepared { head_next (state device.old.image)
        ≡ position_after device.old.image.k (head (state device.old.image)) }
    requires room { HasRoomToEnd device.old }
    requires few { held_count (state device.old.image) ≤ device.old.accepted }
    ensures { (program : Program) (code : Bodies) → IsRow program code device.old device.new }
{
    let slot = device.image.layout().slot(device.image.head());
    let event = device.image.event(slot);
    let posting = device.accepted - held(&device.image) as u32 + 1;
    put(&mut device.image, mark_write(Marker::Event));
    commit_posting(
        &mut device.history,
        event,
        posting,
        device.attempt.as_slice(),
        device.clock + 1,
    );
    device.attempt.clear();
    choose_next(&mut device.phase);
}
