ghost use Rattle.std.specs.Prelude.{◌≡◌, ◌+◌, ◌≤◌, ◌<◌, ◌^◌, ◌⊎◌, ◌↔◌, IfNone, IfOk, IfSome, IsTrue, true, OnErr, OnOk, None, Some, ◌-◌, ℕ, List, length, slice_index};
ghost use mathlib.Core.List.{IsPrefix};
ghost use Rattle.codegen.specs.Bodies.{program_code};
ghost use Rattle.nv_memory.specs.Ring.{held_count};
ghost use Rattle.nv_memory.specs.InRange.{InRange};
ghost use Rattle.nv_memory.specs.StandsFor.{IsIdle, committed_word};
ghost use Rattle.nv_memory.specs.State.{state};
ghost use Rattle.serial_log.specs.declared.record.Record.{Record};
ghost use Rattle.serial_log.specs.History.{HasRecord, readings_in, with_mark};
ghost use Rattle.serial_log.specs.Legal.{IsLegalHistory};
ghost use Rattle.serial_log.specs.Progresses.{EndsTasksInTime, ServesAborts};
ghost use Rattle.serial_log.specs.Progresses.{ServesAtOnce, ServesBetweenUnits};
ghost use Rattle.serial_log.specs.Scripted.{AreBootsAtPeriods};
ghost use Rattle.serial_log.specs.SerialRun.{stand_of};
ghost use Rattle.serial_log.specs.Standing.{standing_of};
ghost use Rattle.task_check.specs.Accepted.{IsAccepted};
ghost use Rattle.event_buffer.specs.Fill.{is_full};
ghost use Rattle.task_cost.specs.Limits.{handler_bound, period_bound};
ghost use Rattle.task_check.specs.Sizes.{HasSizes};
ghost use Rattle.task_syntax.specs.Names.{opening_values, word_count};
ghost use Rattle.coati_device.specs.Points.{HasRoomFor, StandsFor, uncommitted};
ghost use Rattle.coati_board.specs.Board.{IsBlankImage, IsBoardStep, IsFreshDevice, IsIdleBoard, IsOpen, IsOpened, IsOver, IsRaise, IsRefused, IsRoomier, IsSameRun, end_of, first_left, left_of, terms_of};
ghost use Rattle.coati_board.specs.Postings.{ArePostingsInOrder, HasNoneLeft};
ghost use Rattle.coati_board.specs.Postings.{RaisesNext, RaisesNone};
ghost use Rattle.coati_board.specs.Served.{IsScript};
ghost use Rattle.coati_pace.specs.Effort.{shape_of};
ghost use Rattle.coati_pace.specs.Need.{need};
ghost use Rattle.device_pace.specs.Effort.{effort_of};

use crate::cursors::{first_cursors, first_place, posting_there};
use crate::raise::raise;
use crate::step::advance;
use coati_device::laws::{devices_are_sound, steps_keep_devices};
use coati_device::raise_laws::raises_keep_devices;
use coati_device::{Device, Phase, Readings, Waiting};
use coati_word::limits::HALT;
use coati_word::{Mode, OutOfMemory};
use commit_log::committed;
use device_pace::laws::{paced_devices_end_tasks, raises_keep_pace, steps_keep_pace};
use device_pace::need;
use event_buffer::held;
use nv_memory::Image;
use serial_log::{Answer, End, History, Mark, MarkKind, Posting, Script};
use std::alloc::{AllocError, Global};
use std::marker::Model;
use task_check::Checked;
use task_cost::bounds;
use word_code::Code;

/// A program on a device under a script, and the history of its run.
#[derive(Drop)]
pub struct Board {
    checked: Checked,
    code: Code,
    mode: Mode,
    script: Script,
    device: Device,
    /// How many steps a body makes at most before the one that ends it.
    most: u32,
    /// The place of the first posting of the script that is left; the script's end where none is.
    upcoming: u32,
}

impl Model for Board {
    ghost use Rattle.std.specs.Prelude.{◌≡◌, length};
    ghost use Rattle.std.specs.Coded.{codes};
    ghost use Rattle.task_syntax.specs.contracts.statement.Stmt as statement;
    ghost use Rattle.codegen.specs.Bodies.{program_code};
    ghost use Rattle.coati_device.specs.Rows.{steps_before_end};
    ghost use Rattle.coati_board.specs.Board.{IsBoard, Whole};
    ghost use Rattle.coati_board.specs.Cursors.{first_place};

    ghost Value = { Whole };

    ghost coded = { Prim.hlevel (codes, statement.the_row.coded) };

    ghost view = { λ b. record {
      program = b.checked;
      mode = b.mode;
      script = b.script;
      device = b.device;
    } };

    ghost invariant = { λ b. (b.code ≡ program_code b.checked)
        × (b.most ≡ steps_before_end b.checked)
        × IsBoard b.checked b.mode b.script b.device
        × (b.upcoming ≡ first_place b.device.cursors (length b.script.postings)) };
}

impl Board {
    /// A board on blank memory, without room for a step yet. `code` is that of the program. The
    /// room for all boots and for the End mark is taken here. A refusal drops what was given.
    pub fn open(
        alloc: Global,
        checked: Checked,
        code: Code,
        mode: Mode,
        script: Script,
    ) -> Result<Board, OutOfMemory>
        requires code { code ≡ program_code checked }
        requires script { IsScript checked script }
        ensures { IfOk result (IsOpened checked mode script) }
    {
        devices_are_sound();
        paced_devices_end_tasks();
        let device = fresh_device(alloc, &checked, mode, &script)?;
        let most = bounds(&checked).c.saturating_sub(2);
        let upcoming = first_place(&device.cursors, script.postings.as_slice().len() as u32);
        Ok(Board {
            checked,
            code,
            mode,
            script,
            device,
            most,
            upcoming,
        })
    }

    /// Makes room for so many steps. After a refusal all is as before, but for more room.
    pub fn reserve(&mut self, steps: u32) -> Result<(), OutOfMemory>
        ensures run { IsSameRun self.old self.new }
        ensures same { IsRoomier self.old.device self.new.device }
        ensures room { OnOk result (steps ≤ self.new.device.spare) }
        ensures refused { OnErr result (self.new.device.spare ≡ self.old.device.spare) }
    {
        let boots = self.script.power.as_slice().len() as u32 - self.device.boots;
        make_room(&mut self.device, steps, boots)
    }

    /// One step of the executor, and a cut of power behind it where its period is over. No memory
    /// is taken.
    pub fn step(&mut self)
        requires spare { 0 < self.old.device.spare }
        requires limit { self.old.device.steps < self.old.script.limit }
        requires open { IsOpen self.old }
        ensures step { IsBoardStep self.old self.new }
        ensures run { IsSameRun self.old self.new }
        ensures open { IsOpen self.new }
        ensures clock { self.new.device.clock ≡ self.old.device.clock + 1 }
        ensures steps { self.new.device.steps ≡ self.old.device.steps + 1 }
        ensures spare { self.new.device.spare + 1 ≡ self.old.device.spare }
        ensures grows { IsPrefix self.old.device.history.marks self.new.device.history.marks }
        ensures raises { RaisesNone self.old self.new }
        ensures kept { (committed : Record) → HasRecord self.old.device.history committed
            → readings_in self.new.device.history.readings committed
            ≡ readings_in self.old.device.history.readings committed }
    {
        steps_keep_devices();
        steps_keep_pace();
        advance(
            &self.checked,
            &self.code,
            self.most,
            self.script.power.as_slice(),
            &mut self.device,
        );
    }

    /// The next posting of a device is raised, and answered. No memory is taken.
    pub fn post_next(&mut self, device: u8) -> Answer
        requires device { device < 8 }
        requires left { 0 < left_of self.old device }
        requires spare { handler_bound self.old.program ≤ self.old.device.spare }
        requires open { IsOpen self.old }
        ensures raise { IsRaise self.old device self.new result }
        ensures next { RaisesNext self.old device self.new result }
        ensures open { IsOpen self.new }
        ensures full { (result ≡ Answer.Full) ↔ (is_full (state self.old.device.image) ≡ true) }
        ensures refused { result ≡ Answer.Full → IsRefused self.old.device self.new.device }
        ensures steps { self.new.device.steps ≡ self.old.device.steps }
        ensures spare { self.old.device.spare ≤ self.new.device.spare
            + handler_bound self.old.program }
        ensures grows { IsPrefix self.old.device.history.marks self.new.device.history.marks }
        ensures kept { (committed : Record) → HasRecord self.old.device.history committed
            → readings_in self.new.device.history.readings committed
            ≡ readings_in self.old.device.history.readings committed }
    {
        raises_keep_devices();
        raises_keep_pace();
        let answer = raise(
            &self.checked,
            &self.code,
            &self.script,
            &mut self.device,
            device,
        );
        let end = self.script.postings.as_slice().len() as u32;
        self.upcoming = first_place(&self.device.cursors, end);
        answer
    }

    /// How many postings a device has left to raise.
    pub fn left(&self, device: u8) -> u32
        requires { device < 8 }
        ensures { result ≡ left_of self.now device }
    {
        self.device.cursors[device as usize].left
    }

    /// The first posting of the script that is left to raise.
    pub fn first_left(&self) -> Option<Posting>
        ensures first { result ≡ first_left self.now }
        ensures some { IfSome result (λ posting. (posting.device < 8)
            × (0 < left_of self.now posting.device)) }
        ensures none { IfNone result (HasNoneLeft self.now) }
    {
        posting_there(self.script.postings.as_slice(), self.upcoming)
    }

    /// Ends the run with an End mark. No memory is taken.
    pub fn close(&mut self) -> End
        requires over { IsOver self.old ⊎ (self.old.device.steps ≡ self.old.script.limit) }
        requires open { IsOpen self.old }
        ensures idle { (result ≡ End.Idle) ↔ IsOver self.old }
        ensures closed { end_of self.new.device.history.marks ≡ Some result }
        ensures marked { self.new ≡ record self.old {
          device = record self.old.device {
            history = with_mark self.old.device.history
                (record { at = self.old.device.clock; kind = MarkKind.End result });
          };
        } }
    {
        raises_keep_pace();
        let end = if self.is_over() {
            End::Idle
        } else {
            End::Limit
        };
        self.device.history.push(Mark {
            at: self.device.clock,
            kind: MarkKind::End(end),
        });
        end
    }

    /// Whether nothing is left to do, and no posting is left to raise.
    pub fn is_over(&self) -> bool
        ensures over { IsTrue result ↔ IsOver self.now }
        ensures none { IsTrue result → HasNoneLeft self.now }
    {
        self.is_idle() && self.first_left().is_none()
    }

    /// Whether the executor has nothing to do.
    pub fn is_idle(&self) -> bool
        ensures { IsTrue result ↔ IsIdleBoard self.now }
    {
        is_idle(&self.device.image)
    }

    /// Machine steps made.
    pub fn clock(&self) -> u32
        ensures { result ≡ self.now.device.clock }
    {
        self.device.clock
    }

    /// Steps of the executor made.
    pub fn executor_steps(&self) -> u32
        ensures steps { result ≡ self.now.device.steps }
        ensures within { result ≤ self.now.script.limit }
    {
        self.device.steps
    }

    /// The script that it was opened with.
    pub fn script(&self) -> &Script
        ensures script { result.now ≡ self.now.script }
        ensures scripted { IsScript self.now.program self.now.script }
    {
        &self.script
    }

    /// How many steps the executor makes at most.
    pub fn limit(&self) -> u32
        ensures { result ≡ self.now.script.limit }
    {
        self.script.limit
    }

    /// The machine steps that there is room for.
    pub fn spare(&self) -> u32
        ensures { result ≡ self.now.device.spare }
    {
        self.device.spare
    }

    /// The memory of the device.
    pub fn image(&self) -> &Image
        ensures { result.now ≡ self.now.device.image }
    {
        &self.device.image
    }

    /// The history: it is legal, memory stands for where it leads, its boots are at the ends of
    /// the power periods, and events are served between units, or in mode `buffi` at once. Behind
    /// an abort its event comes first. Where a run is left alone for a power period that suffices,
    /// a task ends in it, or nothing is left to do behind it. Each device has raised its postings
    /// in their order, each once.
    pub fn history(&self) -> &History
        ensures history { result.now ≡ self.now.device.history }
        ensures legal { IsLegalHistory (terms_of self.now.program self.now.mode)
            self.now.device.history }
        ensures stands { StandsFor self.now.program (state self.now.device.image)
            (standing_of self.now.program self.now.device.history.marks) }
        ensures boots { AreBootsAtPeriods self.now.program self.now.script.power
            self.now.device.clock self.now.device.history.marks }
        ensures split { self.now.mode ≡ Mode.Split →
            ServesBetweenUnits self.now.program self.now.device.history.marks }
        ensures buffi { self.now.mode ≡ Mode.Buffi →
            ServesAtOnce self.now.program self.now.device.history.marks }
        ensures aborts { ServesAborts self.now.device.history.marks }
        ensures progress { EndsTasksInTime self.now.program (period_bound self.now.program)
            self.now.device.clock self.now.device.history.marks }
        ensures order { ArePostingsInOrder self.now }
    {
        devices_are_sound();
        paced_devices_end_tasks();
        &self.device.history
    }

    /// So many steps suffice until the next task ends or nothing is left to do, where no posting
    /// is raised and no power is cut: at most a power period that suffices, and none exactly where
    /// nothing is left to do.
    pub fn need(&self) -> u32
        ensures value { result ≡ need (shape_of self.now.program) self.now.mode
            (effort_of self.now.device) }
        ensures most { result ≤ period_bound self.now.program }
        ensures idle { (result ≡ 0) ↔ IsIdleBoard self.now }
    {
        paced_devices_end_tasks();
        need(&self.checked, self.mode, &self.device)
    }

    /// The program.
    pub fn checked(&self) -> &Checked
        ensures { result.now ≡ self.now.program }
    {
        &self.checked
    }

    /// Its code.
    pub fn code(&self) -> &Code
        ensures { result.now ≡ program_code self.now.program }
    {
        &self.code
    }

    /// How events are served.
    pub fn mode(&self) -> Mode
        ensures { result ≡ self.now.mode }
    {
        self.mode
    }

    /// How many postings are held.
    pub fn held(&self) -> u16
        ensures { result ≡ held_count (state self.now.device.image) }
    {
        held(&self.device.image)
    }

    /// The committed value of a variable word, which is that of the serial run of the history.
    pub fn store_word(&self, word: u16) -> u16
        requires { word < word_count self.now.program.vars }
        ensures committed { result ≡ committed_word (state self.now.device.image) word }
        ensures store { result ≡ (stand_of self.now.program self.now.device.history).store word }
    {
        committed(&self.device.image, word)
    }
}

// Whether nothing is left to do.
#[tactic(auto, using(event_buffer::proofs::Slots::held_length))]
fn is_idle(image: &Image) -> bool
    requires { InRange (state image.now) }
    ensures { IsTrue result ↔ IsIdle (state image.now) }
{
    if image.current() != HALT {
        return false;
    }
    if image.mark() != 0 {
        return false;
    }
    if image.is_doomed() {
        return false;
    }
    held(image) == 0
}

// A device before its first step, without room for one yet.
fn fresh_device(
    alloc: Global,
    checked: &Checked,
    mode: Mode,
    script: &Script,
) -> Result<Device, OutOfMemory>
    requires few_periods { length script.now.power ≤ 4096 }
    requires few_postings { length script.now.postings ≤ 4096 }
    ensures accepted { IsAccepted checked.now }
    ensures sizes { HasSizes checked.now }
    ensures fresh { IfOk result (IsFreshDevice checked.now mode script.now) }
{
    let image = blank_image(alloc, checked, mode)?;
    let periods = script.power.as_slice();
    let mut history = History::new(alloc);
    history.reserve(periods.len() as u32 + 1, 0)?;
    Ok(Device {
        image,
        phase: Phase::Choose,
        clock: 0,
        steps: 0,
        boots: 0,
        until: period(periods, 0),
        history,
        attempt: Readings::new(alloc),
        unit: Readings::new(alloc),
        waiting: Waiting::new(alloc),
        finished: 0,
        accepted: 0,
        cursors: first_cursors(script.postings.as_slice()),
        spare: 0,
    })
}

// The image before the first step.
fn blank_image(alloc: Global, checked: &Checked, mode: Mode) -> Result<Image, OutOfMemory>
    ensures accepted { IsAccepted checked.now }
    ensures sizes { HasSizes checked.now }
    ensures blank { IfOk result (IsBlankImage checked.now mode) }
{
    let _program = checked.program();
    let opening = opening_words(alloc, checked)?;
    let image = Image::blank(alloc, opening.as_slice(), checked.buffer(), mode)?;
    let _layout = image.layout();
    Ok(image)
}

// What the variable words hold at first.
#[tactic(auto, using(crate::proofs::Opening::opening_count, crate::proofs::Opening::one_more))]
fn opening_words(alloc: Global, checked: &Checked) -> Result<Vec<u16>, AllocError>
    ensures words { IfOk result (λ words. words.items ≡ opening_values checked.now) }
    ensures count { IfOk result (λ words. length words.items ≡ word_count checked.now.vars) }
{
    let _program = checked.program();
    let mut words = Vec::new(alloc);
    for word in 0..checked.words() {
        words.push(checked.opening(word))?;
    }
    Ok(words)
}

// The power period of a number, counted from 0; behind the last one it is 0.
pub(crate) fn period(periods: &[u32], number: u32) -> u32
    ensures { result ≡ slice_index periods.now number }
{
    match periods.get(number as usize) {
        Some(period) => *period,
        None => 0,
    }
}

// Makes room for so many steps, for so many boots to come, and for the End mark.
fn make_room(device: &mut Device, steps: u32, boots: u32) -> Result<(), OutOfMemory>
    requires boots { boots ≤ 4096 }
    requires few { length device.old.history.readings + uncommitted device.old + device.old.spare
        < 2 ^ 32 }
    ensures same { IsRoomier device.old device.new }
    ensures room { OnOk result (steps ≤ device.new.spare) }
    ensures refused { OnErr result (device.new.spare ≡ device.old.spare) }
    ensures enough { (periods : List ℕ) → length periods - device.old.boots ≡ boots
        → HasRoomFor device.old.spare periods device.old
        → HasRoomFor device.new.spare periods device.new }
    ensures few { length device.new.history.readings + uncommitted device.new + device.new.spare
        < 2 ^ 32 }
    ensures time { device.old.clock + device.old.spare < 2 ^ 32
        → device.new.clock + device.new.spare < 2 ^ 32 }
{
    if steps <= device.spare {
        return Ok(());
    }
    let read = device.attempt.as_slice().len() as u32;
    let to_keep = read.checked_add(steps).ok_or(OutOfMemory)?;
    let to_record = uncommitted(device).checked_add(steps).ok_or(OutOfMemory)?;
    let marks = steps.checked_add(boots + 1).ok_or(OutOfMemory)?;
    device
        .history
        .recorded()
        .checked_add(to_record)
        .ok_or(OutOfMemory)?;
    device.clock.checked_add(steps).ok_or(OutOfMemory)?;
    device.history.reserve(marks, to_record)?;
    device.unit.reserve(to_keep)?;
    device.attempt.reserve(steps)?;
    device.waiting.reserve(steps)?;
    device.spare = steps;
    Ok(())
}

// How many readings are in no record yet.
fn uncommitted(device: &Device) -> u32
    requires { uncommitted device.now < 2 ^ 32 }
    ensures { result ≡ uncommitted device.now }
{
    let kept = device.unit.as_slice().len() as u32;
    let read = device.attempt.as_slice().len() as u32;
    kept + read + device.waiting.count()
}
