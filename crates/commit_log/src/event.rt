ghost use Rattle.nv_memory.specs.InRange.{InRange};
ghost use Rattle.nv_memory.specs.State.{state};
ghost use Rattle.tx_buffer.specs.Next.{IsNext};
ghost use Rattle.commit_log.specs.Changes.{event_changes, freeing_changes, taken_changes};

use crate::variables::variable_write;
use crate::words::MARK_CLEARED;
use nv_memory::{Image, Log, Write, header};
use tx_buffer::header_write;

/// The next write of an event's commit.
pub fn event_write(image: &Image) -> Option<Write>
    requires { InRange (state image.now) }
    ensures { IsNext image.now (event_changes (state image.now)) result }
{
    match taken_write(image) {
        Some(write) => Some(write),
        None => freeing_write(image),
    }
}

// The next write once the entry's pairs stand.
fn freeing_write(image: &Image) -> Option<Write>
    ensures { IsNext image.now (freeing_changes (state image.now)) result }
{
    let freed = Write {
        at: header::HEAD,
        word: image.head_next(),
    };
    header_write(image, &[freed, MARK_CLEARED])
}

// The next write of the pairs of the entry at the head, while it is there.
fn taken_write(image: &Image) -> Option<Write>
    requires { InRange (state image.now) }
    ensures { IsNext image.now (taken_changes (state image.now)) result }
{
    let head = image.head();
    if head == image.head_next() {
        return None;
    }
    variable_write(image, Log::Entry(image.layout().slot(head)))
}
