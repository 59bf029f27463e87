ghost use Rattle.std.specs.Prelude.{◌≡◌};
ghost use Rattle.nv_memory.specs.InRange.{InRange};
ghost use Rattle.nv_memory.specs.State.{state};
ghost use Rattle.bottom_half.specs.Jobs.{next_job};

use event_buffer::{entry, held, held_slot};
use nv_memory::Image;

/// A posting whose bottom half is to run.
#[derive(Clone, Copy, Debug, PartialEq, Eq)]
pub struct Job {
    pub event: u16,
    /// The slot of its entry in the ring.
    pub slot: u16,
    /// The message words of its entry, of which the first are the message.
    pub message: [u16; 4],
}

/// The oldest held posting. None exactly where nothing is held or a transaction is open.
pub fn pick(img: &Image) -> Option<Job>
    requires { InRange (state img.now) }
    ensures { result ≡ next_job (state img.now) }
{
    if img.is_open() || held(img) == 0 {
        return None;
    }
    let slot = held_slot(img, 0);
    let (event, message) = entry(img, 0);
    Some(Job {
        event,
        slot,
        message,
    })
}
