ghost use Rattle.std.specs.Prelude.{◌≡◌, ◌+◌, ◌<◌, length, false};
ghost use Rattle.nv_memory.specs.InRange.{InRange};
ghost use Rattle.nv_memory.specs.State.{Writes, state};
ghost use Rattle.nv_memory.specs.Words.{mark};
ghost use Rattle.event_buffer.specs.Fill.{fill_change, is_full, tail_slot};
ghost use Rattle.event_buffer.specs.TurnLaws.{accept_change, free_change};

use coati_word::Message;
use nv_memory::{Image, Log, Write, header};

/// The write of a part, counted from 0, of the next posting, into the slot at the tail: its event,
/// then each word of its message, then an empty log.
pub fn fill_write(img: &Image, event: u16, message: &Message, i: u16) -> Write
    requires range { InRange (state img.now) }
    requires part { i < length message.now + 2 }
    ensures { Writes img.now (fill_change (tail_slot (state img.now)) event message.now i) result }
{
    let layout = img.layout();
    let slot = layout.slot(img.tail());
    if i == 0 {
        return Write {
            at: layout.event(slot),
            word: event,
        };
    }
    match message.as_slice().get(i as usize - 1) {
        Some(&word) => Write {
            at: layout.message(slot, i - 1),
            word,
        },
        None => Write {
            at: layout.length(Log::Entry(slot)),
            word: 0,
        },
    }
}

/// The write that accepts the posting in the slot at the tail, where there is room for it.
pub fn accept_write(img: &Image) -> Write
    requires range { InRange (state img.now) }
    requires room { is_full (state img.now) ≡ false }
    ensures { Writes img.now (accept_change (state img.now)) result }
{
    Write {
        at: header::TAIL,
        word: img.layout().position_after(img.tail()),
    }
}

/// The write that moves the head behind the entry that an event's commit has taken.
pub fn free_write(img: &Image) -> Write
    requires { mark (state img.now) ≡ 3 }
    ensures { Writes img.now (free_change (state img.now)) result }
{
    Write {
        at: header::HEAD,
        word: img.head_next(),
    }
}
