ghost use Rattle.std.specs.Prelude.{◌≡◌, ◌<◌, ◌≤◌, Some, length, slice_get, slice_index};
ghost use Rattle.nv_memory.specs.InRange.{InRange};
ghost use Rattle.nv_memory.specs.Ring.{held_entries, held_slots, oldest, positions};
ghost use Rattle.nv_memory.specs.State.{state};
ghost use Rattle.event_buffer.specs.Fill.{is_full};
ghost use Rattle.event_buffer.specs.Held.{slot_behind};

use nv_memory::Image;

// The marker of an event's commit.
const EVENT: u16 = 3;

/// How many postings are held: accepted, and taken by no commit yet.
pub fn held(img: &Image) -> u16
    requires { InRange (state img.now) }
    ensures { result ≡ length (held_entries (state img.now)) }
{
    img.layout().positions_between(oldest(img), img.tail())
}

/// Whether there is no room for another posting.
pub fn is_full(img: &Image) -> bool
    requires { InRange (state img.now) }
    ensures { result ≡ is_full (state img.now) }
{
    held(img) == img.layout().k
}

/// The event and the message words, as they stand, of a held posting, counted from the oldest.
pub fn entry(img: &Image, i: u16) -> (u16, [u16; 4])
    requires range { InRange (state img.now) }
    requires held { i < length (held_entries (state img.now)) }
    ensures { slice_get (held_entries (state img.now)) i
        ≡ Some (record { event = result.0; message = result.1 }) }
{
    let slot = held_slot(img, i);
    (img.event(slot), img.message(slot))
}

/// The slot of a held posting, counted from the oldest.
pub fn held_slot(img: &Image, i: u16) -> u16
    requires range { InRange (state img.now) }
    requires held { i < length (held_entries (state img.now)) }
    ensures slot { result ≡ slice_index (held_slots (state img.now)) i }
    ensures low { result ≤ img.now.k }
{
    slot_behind(img, i)
}

// The slot so many positions behind the oldest held posting.
fn slot_behind(img: &Image, i: u16) -> u16
    requires range { InRange (state img.now) }
    requires few { i < 32 }
    ensures slot { result ≡ slot_behind (state img.now) i }
    ensures low { result ≤ img.now.k }
{
    let layout = img.layout();
    layout.slot((oldest(img) + i) % layout.positions())
}

// The position of the oldest held posting. An event's commit takes the one at the head by its
// mark.
fn oldest(img: &Image) -> u16
    requires { InRange (state img.now) }
    ensures position { result ≡ oldest (state img.now) }
    ensures low { result < positions img.now.k }
{
    if img.mark() == EVENT {
        img.head_next()
    } else {
        img.head()
    }
}
