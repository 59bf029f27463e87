//! A device raises its next posting: where the buffer is full it is refused at once, else its
//! handler runs.

ghost use Rattle.std.specs.Prelude.{◌≡◌, ◌+◌, ◌-◌, ◌^◌, ◌<◌, ◌≤◌, List, false, length};
ghost use Rattle.codegen.specs.Bodies.{program_code};
ghost use Rattle.coati_device.specs.Cursors.{answered, cursor_of, next_posting};
ghost use Rattle.coati_device.specs.Raises.{Raises};
ghost use Rattle.coati_device.specs.Ticks.{ticked};
ghost use Rattle.coati_board.specs.Raising.{CanAnswer, CanRaise};
ghost use Rattle.serial_log.specs.declared.posted.Answer.TheVariants as answer;

use crate::cursors::{answer, posting_at};
use crate::handler::handle;
use crate::tick::tick;
use coati_device::Device;
use event_buffer::is_full;
use serial_log::{Answer, Posting, Script};
use task_check::Checked;
use word_code::Code;

/// The next posting of the device of a number is raised.
pub fn raise(
    checked: &Checked,
    code: &Code,
    script: &Script,
    device: &mut Device,
    number: u8,
) -> Answer
    requires code { code.now ≡ program_code checked.now }
    requires can { CanRaise checked.now script.now device.old number }
    ensures { Raises checked.now code.now script.now.power script.now.postings number device.old
        device.new result }
{
    let posting = upcoming(script, device, number);
    if is_full(&device.image) {
        refuse(script, device, number, posting);
        return Answer::Full;
    }
    let from = device.clock;
    let answer = handle(checked, code, device, posting.event, posting.argument);
    settle(script, device, number, posting, from, answer);
    answer
}

// The posting that a device raises next.
fn upcoming(script: &Script, device: &Device, number: u8) -> Posting
    requires number { number < 8 }
    requires can { CanAnswer script.now.postings device.now number }
    ensures { result ≡ next_posting script.now.postings device.now number }
{
    let cursor = device.cursors[number as usize];
    posting_at(script.postings.as_slice(), cursor.at)
}

// A posting is refused at once.
fn refuse(script: &Script, device: &mut Device, number: u8, posting: Posting)
    requires number { number < 8 }
    requires can { CanAnswer script.now.postings device.old number }
    requires spare { 0 < device.old.spare }
    ensures { device.new ≡ answered script.now.postings number posting device.old.clock
        device.old.clock answer.Full
        (record device.old { spare = device.old.spare - 1 }) }
{
    let at = device.clock;
    device.spare -= 1;
    answer(
        script.postings.as_slice(),
        device,
        number,
        posting,
        at,
        at,
        Answer::Full,
    );
}

// The mark of a handler's answer, and the time of its last step.
fn settle(
    script: &Script,
    device: &mut Device,
    number: u8,
    posting: Posting,
    from: u32,
    given: Answer,
)
    requires number { number < 8 }
    requires can { CanAnswer script.now.postings device.old number }
    requires time { device.old.clock + 1 < 2 ^ 32 }
    requires boots { device.old.boots + 1 < 2 ^ 32 }
    requires spare { 0 < device.old.spare }
    requires marks { 1 < device.old.history.mark_room }
    ensures { device.new ≡ ticked script.now.power
        (answered script.now.postings number posting from (device.old.clock + 1) given
        device.old) }
{
    let at = device.clock + 1;
    answer(
        script.postings.as_slice(),
        device,
        number,
        posting,
        from,
        at,
        given,
    );
    tick(script.power.as_slice(), device);
}
