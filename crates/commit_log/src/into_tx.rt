ghost use Rattle.nv_memory.specs.InRange.{InRange};
ghost use Rattle.nv_memory.specs.State.{state};
ghost use Rattle.tx_buffer.specs.Next.{IsNext};
ghost use Rattle.commit_log.specs.Changes.{into_tx_changes, opening_changes};

use crate::stands::first_task;
use crate::words::{MARK_CLEARED, OPENED, TASK_EMPTIED};
use nv_memory::{Image, Write, header};
use tx_buffer::{header_write, merge_write};

/// The next write of a task's commit into its transaction.
pub fn into_tx_write(image: &Image) -> Option<Write>
    requires { InRange (state image.now) }
    ensures { IsNext image.now (into_tx_changes (state image.now)) result }
{
    match merge_write(image) {
        Some(write) => Some(write),
        None => opening_write(image),
    }
}

// The next write once the transaction has all that the task wrote and read.
fn opening_write(image: &Image) -> Option<Write>
    ensures { IsNext image.now (opening_changes (state image.now)) result }
{
    let first = Write {
        at: header::FIRST,
        word: first_task(image),
    };
    let arrived = Write {
        at: header::CURRENT,
        word: image.next(),
    };
    header_write(image, &[first, OPENED, arrived, TASK_EMPTIED, MARK_CLEARED])
}
