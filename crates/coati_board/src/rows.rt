//! The rows of the executor's table: each is one machine step, and writes one word of memory at
//! most.

ghost use Rattle.std.specs.Prelude.{◌≡◌, ◌≢◌, ◌+◌, ◌^◌, ◌<◌, ◌≤◌, ◌↔◌, IfSome, IsNone, IsTrue, true, false};
ghost use Rattle.buffi_sets.specs.Flags.{HasNoFlag};
ghost use Rattle.codegen.specs.Bodies.{program_code};
ghost use Rattle.nv_memory.specs.InRange.{InRange};
ghost use Rattle.nv_memory.specs.Logs.{log_length};
ghost use Rattle.nv_memory.specs.State.{state};
ghost use Rattle.nv_memory.specs.Words.{current, doomed, mark, mode, next};
ghost use Rattle.nv_memory.specs.declared.log.Log.TheVariants as log;
ghost use Rattle.task_syntax.specs.declared.body.BodyId.TheVariants as body;
ghost use Rattle.task_syntax.specs.declared.program.Program.{Program};
ghost use Rattle.task_syntax.specs.Units.{halt, is_inside, place_after, transaction_of};
ghost use Rattle.word_code.specs.Code.{Bodies, HasBody};
ghost use Rattle.coati_device.specs.Kept.{unit_of};
ghost use Rattle.coati_device.specs.Laws.{Rows};
ghost use Rattle.coati_device.specs.Rows.{Chooses, Ends, IsClear, IsRow, steps_before_end};
ghost use Rattle.coati_board.specs.Ready.{CanAct, ComesToDrain, HasRoomToEnd, Runs, RunsTheTask, UnflagsBy};

use crate::bottom_rows::{choose_event, end_bottom_half, run_bottom_half};
use crate::commit::commit;
use crate::drain_rows::drain;
use crate::phases::{choose_next, end_next, run_next};
use crate::task_view::TaskView;
use crate::units::{is_in, unit_of};
use crate::writes::put;
use bottom_half::pick;
use buffi_sets::{abort_write, unflag_write};
use coati_device::laws::rows_keep_fit;
use coati_device::{Device, Phase};
use coati_word::Ending;
use coati_word::limits::HALT;
use codegen::laws::bodies_stand_by_number;
use commit_log::{Marker, mark_write, next_write, prepare_write};
use event_buffer::held;
use nv_memory::{Image, Log, Write};
use reboot::after_cut;
use serial_log::{Mark, MarkKind, Unit};
use task_buffer::reset_write;
use task_check::Checked;
use task_syntax::BodyId;
use word_code::Code;
use word_cpu::{Cpu, Turn};

/// The first row that applies.
pub fn act(checked: &Checked, code: &Code, most: u32, device: &mut Device)
    requires code { code.now ≡ program_code checked.now }
    requires most { most ≡ steps_before_end checked.now }
    requires ready { CanAct checked.now device.old }
    ensures { Rows checked.now device.old device.new }
{
    match after_cut(&device.image) {
        reboot::Phase::Apply => apply(device),
        reboot::Phase::Undo => undo(device),
        reboot::Phase::Choose => go_on(checked, code, most, device),
    }
}

// Neither a commit nor an undo is under way.
fn go_on(checked: &Checked, code: &Code, most: u32, device: &mut Device)
    requires code { code.now ≡ program_code checked.now }
    requires most { most ≡ steps_before_end checked.now }
    requires ready { CanAct checked.now device.old }
    requires clear { IsClear (state device.old.image) }
    ensures { Rows checked.now device.old device.new }
{
    rows_keep_fit();
    match device.phase {
        Phase::Run(..) => run(code, device),
        Phase::Choose if drains(&device.image) => drain(checked, device, false),
        Phase::Choose => choose(checked, code, most, device),
        Phase::End(_) if drains(&device.image) => drain(checked, device, true),
        Phase::End(place) => end(checked, device, place),
        Phase::EndBottom => end_bottom_half(device),
    }
}

// Whether an event is to be committed before the tasks go on, in mode `buffi`.
fn drains(image: &Image) -> bool
    requires { InRange (state image.now) }
    ensures { IsTrue result ↔ ComesToDrain (state image.now) }
{
    image.is_buffi() && held(image) > 0
}

// The next write of the commit under way.
fn apply(device: &mut Device)
    requires range { InRange (state device.old.image) }
    requires under_way { mark (state device.old.image) ≢ 0 }
    ensures { (program : Program) (code : Bodies) → IsRow program code device.old device.new }
{
    if let Some(write) = next_write(&device.image) {
        put(&mut device.image, write);
    }
}

// The next write of the undo under way.
fn undo(device: &mut Device)
    requires range { InRange (state device.old.image) }
    requires no_commit { mark (state device.old.image) ≡ 0 }
    requires under_way { doomed (state device.old.image) ≡ 1 }
    ensures { (program : Program) (code : Bodies) → IsRow program code device.old device.new }
{
    if let Some(write) = abort_write(&device.image) {
        put(&mut device.image, write);
    }
}

// What comes next: the oldest held posting where no transaction is open, and else the task to run.
fn choose(checked: &Checked, code: &Code, most: u32, device: &mut Device)
    requires code { code.now ≡ program_code checked.now }
    requires most { most ≡ steps_before_end checked.now }
    requires ready { CanAct checked.now device.old }
    requires clear { IsClear (state device.old.image) }
    requires chooses { device.old.phase ≡ Phase.Choose }
    requires undrained { ¬ ComesToDrain (state device.old.image) }
    ensures { Rows checked.now device.old device.new }
{
    bodies_stand_by_number();
    match pick(&device.image) {
        Some(job) => choose_event(checked, code, most, device, job),
        None => choose_task(code, most, device),
    }
}

// The task to run starts, once the log and the flags that an attempt before has left are gone.
// Behind the last task nothing is to do.
fn choose_task(code: &Code, most: u32, device: &mut Device)
    requires range { InRange (state device.old.image) }
    requires chooses { Chooses device.old }
    requires task { current (state device.old.image) ≢ halt
        → HasBody code.now (body.Task (current (state device.old.image))) }
    ensures { (program : Program) → most ≡ steps_before_end program
        → IsRow program code.now device.old device.new }
{
    let task = device.image.current();
    if task == HALT {
        return;
    }
    match reset_write(&device.image, Log::Task) {
        Some(write) => put(&mut device.image, write),
        None => start_unflagged(code, most, device, task),
    }
}

// The task starts where no flag of an attempt before is left, in mode `buffi`.
fn start_unflagged(code: &Code, most: u32, device: &mut Device, task: u16)
    requires range { InRange (state device.old.image) }
    requires chooses { Chooses device.old }
    requires task { task ≡ current (state device.old.image) }
    requires some { task ≢ halt }
    requires body { HasBody code.now (body.Task task) }
    requires empty { log_length (state device.old.image) log.Task ≡ 0 }
    ensures { (program : Program) → most ≡ steps_before_end program
        → IsRow program code.now device.old device.new }
{
    match left_flag(&device.image) {
        Some(write) => put(&mut device.image, write),
        None => start(code, most, device, task),
    }
}

// The write that takes back a flag that an attempt before has left, in mode `buffi`.
fn left_flag(image: &Image) -> Option<Write>
    requires { InRange (state image.now) }
    ensures write { IfSome result (UnflagsBy image.now) }
    ensures none { IsNone result → mode (state image.now) ≡ 1 → HasNoFlag (state image.now) }
{
    if image.is_buffi() {
        unflag_write(image)
    } else {
        None
    }
}

// The task starts with an empty attempt.
fn start(code: &Code, most: u32, device: &mut Device, task: u16)
    requires chooses { Chooses device.old }
    requires task { task ≡ current (state device.old.image) }
    requires some { task ≢ halt }
    requires body { HasBody code.now (body.Task task) }
    requires empty { log_length (state device.old.image) log.Task ≡ 0 }
    requires unflagged { mode (state device.old.image) ≡ 1 → HasNoFlag (state device.old.image) }
    ensures { (program : Program) → most ≡ steps_before_end program
        → IsRow program code.now device.old device.new }
{
    device.attempt.clear();
    let cpu = Cpu::start(code, BodyId::Task(task), &[]);
    run_next(&mut device.phase, cpu, most);
}

// One step of the machine.
fn run(code: &Code, device: &mut Device)
    requires range { InRange (state device.old.image) }
    requires clear { IsClear (state device.old.image) }
    requires runs { Runs code.now device.old }
    requires room { 0 < device.old.attempt.room }
    ensures { (program : Program) → IsRow program code.now device.old device.new }
{
    let Phase::Run(cpu, _) = &device.phase else {
        unreachable!()
    };
    match cpu.body() {
        BodyId::Task(_) => run_task(code, device),
        BodyId::Top(_) => unreachable!(),
        BodyId::Bottom(_) => run_bottom_half(code, device),
    }
}

// One step of the machine in the task to run.
fn run_task(code: &Code, device: &mut Device)
    requires range { InRange (state device.old.image) }
    requires clear { IsClear (state device.old.image) }
    requires runs { RunsTheTask code.now device.old }
    requires room { 0 < device.old.attempt.room }
    ensures { (program : Program) → IsRow program code.now device.old device.new }
{
    let Phase::Run(cpu, left) = &mut device.phase else {
        unreachable!()
    };
    *left = left.saturating_sub(1);
    let mut view = TaskView {
        image: &mut device.image,
    };
    match cpu.step(code, &mut view) {
        Turn::Went(Some(reading)) => device.attempt.push(reading),
        Turn::Went(None) => {}
        Turn::Storing => {}
        Turn::Ended(ending) => end_next(&mut device.phase, place_after(ending)),
    }
}

// Where an ending leads.
fn place_after(ending: Ending) -> u16
    ensures { result ≡ place_after ending }
{
    match ending {
        Ending::Next(task) => task,
        _ => HALT,
    }
}

// The place behind the task is written where it isn't there yet. Then the task is done.
fn end(checked: &Checked, device: &mut Device, place: u16)
    requires ends { Ends device.old place }
    requires room { HasRoomToEnd device.old }
    ensures { (code : Bodies) → IsRow checked.now code device.old device.new }
{
    match prepare_write(&device.image, place) {
        Some(write) => put(&mut device.image, write),
        None => end_task(checked, device, place),
    }
}

// The task is merged into its transaction where that goes on, and else its unit is committed.
fn end_task(checked: &Checked, device: &mut Device, place: u16)
    requires ends { Ends device.old place }
    requires prepared { next (state device.old.image) ≡ place }
    requires room { HasRoomToEnd device.old }
    ensures { (code : Bodies) → IsRow checked.now code device.old device.new }
{
    let task = device.image.current();
    let tx = checked.tx_of_task(task);
    if is_in(checked, tx, place) {
        join(device, place);
    } else {
        commit_unit(device, unit_of(tx, task), place);
    }
}

// A task of a transaction is done, and the transaction goes on: what the task read is kept for its
// record.
fn join(device: &mut Device, place: u16)
    requires ends { Ends device.old place }
    requires prepared { next (state device.old.image) ≡ place }
    requires room { HasRoomToEnd device.old }
    ensures { (program : Program) (code : Bodies)
        → is_inside program (current (state device.old.image)) place ≡ true
        → IsRow program code device.old device.new }
{
    let task = device.image.current();
    put(&mut device.image, mark_write(Marker::IntoTx));
    device.history.push(Mark {
        at: device.clock + 1,
        kind: MarkKind::Done(task),
    });
    device.unit.push_all(device.attempt.as_slice());
    device.finished += 1;
    device.attempt.clear();
    choose_next(&mut device.phase);
}

// The unit is whole: it is committed, and its record told.
fn commit_unit(device: &mut Device, unit: Unit, place: u16)
    requires ends { Ends device.old place }
    requires prepared { next (state device.old.image) ≡ place }
    requires room { HasRoomToEnd device.old }
    ensures { (program : Program) (code : Bodies)
        → is_inside program (current (state device.old.image)) place ≡ false
        → unit ≡ unit_of (transaction_of program (current (state device.old.image)))
        (current (state device.old.image))
        → IsRow program code device.old device.new }
{
    put(&mut device.image, mark_write(Marker::Unit));
    commit(
        &mut device.history,
        unit,
        device.finished + 1,
        device.unit.as_slice(),
        device.attempt.as_slice(),
        device.clock + 1,
    );
    device.unit.clear();
    device.finished = 0;
    device.attempt.clear();
    choose_next(&mut device.phase);
}
