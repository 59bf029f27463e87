//! The handler of a posting: its top half runs, what that gives is written into the buffer, and
//! the posting is accepted. In mode `buffi` its bottom half runs before that. Each step is one
//! machine step, behind which the power may be cut.

ghost use Rattle.std.specs.Prelude.{◌≡◌, ◌↔◌, ◌<◌, ◌∷◌, ◌+◌, [], IsTrue, ℕ, length};
ghost use Rattle.codegen.specs.Bodies.{program_code};
ghost use Rattle.nv_memory.specs.InRange.{InRange};
ghost use Rattle.nv_memory.specs.Seats.{Memory};
ghost use Rattle.nv_memory.specs.State.{state};
ghost use Rattle.task_syntax.specs.declared.body.BodyId.TheVariants as body;
ghost use Rattle.task_syntax.specs.Events.{message_of};
ghost use Rattle.word_code.specs.Code.{Bodies};
ghost use Rattle.word_cpu.specs.declared.cpu.Cpu.{Cpu as Machine};
ghost use Rattle.word_cpu.specs.declared.turn.Turn.{Turn as Step};
ghost use Rattle.word_cpu.specs.Turning.{IsStep};
ghost use Rattle.word_cpu.specs.UnderWay.{IsAtStart};
ghost use Rattle.coati_device.specs.HandlerView.{handler_view};
ghost use Rattle.coati_device.specs.Raises.{Handles, IsHandStep, first_hand};
ghost use Rattle.coati_device.specs.ScratchView.{scratch_view};
ghost use Rattle.coati_device.specs.Waits.{waits_after};
ghost use Rattle.coati_board.specs.Handlers.{CanAccept, CanHandStep, CanHandle, CanStepInBottom, CanStepOnTop, Fills, IsAtHandler, LeavesTheRest, is_end, message_given};

use crate::handler_view::HandlerView;
use crate::tick::pass;
use crate::writes::put;
use buffi_sets::laws::handlers_read_behind_held_events;
use coati_device::{Device, Hand, Scratch};
use coati_word::{Ending, Message};
use codegen::laws::{accepted_programs_compute_their_courses, bodies_stand_by_number};
use event_buffer::laws::{accepts_add_the_newest, parts_fill_the_slot, the_tail_entry_is_free};
use event_buffer::{accept_write, fill_write};
use serial_log::Answer;
use task_buffer::laws::stores_set_the_value;
use task_check::Checked;
use task_syntax::BodyId;
use task_syntax::laws::{accesses_join_up, courses_under_way_go_on, last_writes_tell_the_store};
use word_code::Code;
use word_code::laws::{following_goes_on, instructions_are_their_words};
use word_cpu::{Cpu, Turn};

/// The handler of a posting of an event, up to the step that decides and before that step's mark
/// and time: the one that accepts the posting, or one behind which the power is cut.
pub fn handle(
    checked: &Checked,
    code: &Code,
    device: &mut Device,
    event: u16,
    argument: u16,
) -> Answer
    requires code { code.now ≡ program_code checked.now }
    requires can { CanHandle checked.now event device.old }
    ensures leaves { LeavesTheRest device.old device.new }
    ensures handles { (cpu : Machine) × IsAtStart (body.Top event) (argument ∷ []) cpu
        × Handles code.now event (first_hand checked.now cpu) device.old device.new result }
{
    bodies_stand_by_number();
    let cpu = Cpu::start(code, BodyId::Top(event), &[argument]);
    let first = Hand::Top(cpu, Scratch::new(checked.words()));
    run(code, device, event, first)
}

// The handler from its first step on.
fn run(code: &Code, device: &mut Device, event: u16, first: Hand) -> Answer
    requires { IsAtHandler code.now event first device.old }
    ensures leaves { LeavesTheRest device.old device.new }
    ensures handles { Handles code.now event first device.old device.new result }
{
    accesses_join_up();
    courses_under_way_go_on();
    last_writes_tell_the_store();
    following_goes_on();
    instructions_are_their_words();
    accepted_programs_compute_their_courses();
    stores_set_the_value();
    handlers_read_behind_held_events();
    bodies_stand_by_number();
    parts_fill_the_slot();
    the_tail_entry_is_free();
    accepts_add_the_newest();
    let mut hand = first;
    loop {
        step(code, device, event, &mut hand);
        if is_over(&hand) {
            return Answer::Accepted(device.accepted);
        }
        if device.until == 1 {
            return Answer::Lost(device.boots + 1);
        }
        pass(device);
    }
}

// One machine step of a handler, before its time. A machine and its words stay where they are.
fn step(code: &Code, device: &mut Device, event: u16, hand: &mut Hand)
    requires { CanHandStep code.now event hand.old device.old }
    ensures { IsHandStep code.now event hand.old device.old hand.new device.new }
{
    match hand {
        Hand::Top(cpu, words) => {
            if let Some(message) = top_step(code, cpu, words) {
                begin_filling(hand, message);
            }
        }
        Hand::Fill(message, part) => {
            let is_buffi = device.image.is_buffi();
            fill(device, event, message, *part);
            if *part as usize != message.as_slice().len() + 1 {
                *part += 1;
            } else if is_buffi {
                device.waiting.begin();
                let cpu = Cpu::start(code, BodyId::Bottom(event), message.as_slice());
                begin_bottom_half(hand, cpu);
            } else {
                come_to_accept(hand);
            }
        }
        Hand::Bottom(cpu) => {
            if bottom_step(code, device, cpu) {
                come_to_accept(hand);
            }
        }
        Hand::Accept => {
            accept(device);
            end(hand);
        }
        Hand::Over => unreachable!(),
    }
}

// A step of the machine in the top half. Where that ends, the words that it gives.
fn top_step(code: &Code, cpu: &mut Cpu, words: &mut Scratch) -> Option<Message>
    requires { CanStepOnTop code.now cpu.old words.old }
    ensures { (turn : Step) × IsStep scratch_view code.now cpu.old cpu.new words.old words.new turn
        × (result ≡ message_given turn) }
{
    match cpu.step(code, words) {
        Turn::Went(_reading) => None,
        Turn::Storing => None,
        Turn::Ended(ending) => Some(message_of(ending)),
    }
}

// The words that a top half gives.
fn message_of(ending: Ending) -> Message
    ensures { result ≡ message_of ending }
{
    match ending {
        Ending::Given(message) => message,
        _ => Message::new(&[]),
    }
}

// A part of the posting is written.
fn fill(device: &mut Device, event: u16, message: &Message, part: u16)
    requires range { InRange (state device.old.image) }
    requires part { part < length message.now + 2 }
    ensures { Fills event message.now part device.old device.new }
{
    let write = fill_write(&device.image, event, message, part);
    put(&mut device.image, write);
}

// A step of the machine in the bottom half. Tells whether that ends.
fn bottom_step(code: &Code, device: &mut Device, cpu: &mut Cpu) -> bool
    requires { CanStepInBottom code.now cpu.old device.old }
    ensures { (image : Memory) × (turn : Step)
        × IsStep handler_view code.now cpu.old cpu.new device.old.image image turn
        × (device.new ≡ record device.old {
          image = image;
          waiting = waits_after device.old.waiting turn;
        }) × (result ≡ is_end turn) }
{
    let mut view = HandlerView {
        image: &mut device.image,
    };
    match cpu.step(code, &mut view) {
        Turn::Went(Some(reading)) => {
            device.waiting.push(reading);
            false
        }
        Turn::Went(None) => false,
        Turn::Storing => false,
        Turn::Ended(_ending) => true,
    }
}

// The posting is accepted. In mode `buffi` its event waits for its commit with what it has read.
fn accept(device: &mut Device)
    requires { CanAccept device.old }
    ensures { (code : Bodies) (event : ℕ)
        → IsHandStep code event Hand.Accept device.old Hand.Over device.new }
{
    let is_buffi = device.image.is_buffi();
    let write = accept_write(&device.image);
    put(&mut device.image, write);
    device.accepted += 1;
    if is_buffi {
        device.waiting.hold();
    }
}

// The top half has ended with this message.
fn begin_filling(hand: &mut Hand, message: Message)
    ensures { hand.new ≡ Hand.Fill message 0 }
{
    *hand = Hand::Fill(message, 0);
}

// The bottom half begins.
fn begin_bottom_half(hand: &mut Hand, cpu: Cpu)
    ensures { hand.new ≡ Hand.Bottom cpu }
{
    *hand = Hand::Bottom(cpu);
}

// The write that accepts the posting comes next.
fn come_to_accept(hand: &mut Hand)
    ensures { hand.new ≡ Hand.Accept }
{
    *hand = Hand::Accept;
}

// The handler is over.
fn end(hand: &mut Hand)
    ensures { hand.new ≡ Hand.Over }
{
    *hand = Hand::Over;
}

// Whether the handler is over.
fn is_over(hand: &Hand) -> bool
    ensures { IsTrue result ↔ (hand.now ≡ Hand.Over) }
{
    match hand {
        Hand::Over => true,
        _ => false,
    }
}
