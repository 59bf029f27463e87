ghost use Rattle.std.specs.Prelude.{◌≡◌};
ghost use Rattle.nv_memory.specs.InRange.{InRange};
ghost use Rattle.nv_memory.specs.Logs.{length_in, tx_log};
ghost use Rattle.nv_memory.specs.State.{state};
ghost use Rattle.tx_buffer.specs.Next.{IsNext};
ghost use Rattle.commit_log.specs.Changes.{closing_changes, newer_changes, unit_changes, unit_closes, unit_ends};

use crate::variables::{older_write, variable_write};
use crate::words::{CLOSED, MARK_CLEARED, TASK_EMPTIED, TX_EMPTIED};
use nv_memory::{Image, Log, Write, header};
use tx_buffer::{clear_write, header_write};

/// The next write of a unit's commit.
pub fn unit_write(image: &Image) -> Option<Write>
    requires { InRange (state image.now) }
    ensures { IsNext image.now (unit_changes (state image.now)) result }
{
    match older_write(image) {
        Some(write) => Some(write),
        None => newer_write(image),
    }
}

// The next write once the older pairs stand.
fn newer_write(image: &Image) -> Option<Write>
    requires { InRange (state image.now) }
    ensures { IsNext image.now (newer_changes (state image.now)) result }
{
    match variable_write(image, Log::Task) {
        Some(write) => Some(write),
        None => end_write(image),
    }
}

// The next write once the variables stand.
fn end_write(image: &Image) -> Option<Write>
    requires { InRange (state image.now) }
    ensures { IsNext image.now (unit_ends (state image.now)) result }
{
    match header_write(image, &[TX_EMPTIED, TASK_EMPTIED]) {
        Some(write) => Some(write),
        None => close_write(image),
    }
}

// The next write once the logs are empty.
fn close_write(image: &Image) -> Option<Write>
    requires range { InRange (state image.now) }
    requires empty { length_in (state image.now) tx_log ≡ 0 }
    ensures { IsNext image.now (unit_closes (state image.now)) result }
{
    match clear_write(image) {
        Some(write) => Some(write),
        None => closing_write(image),
    }
}

// The next write once no flag is left.
fn closing_write(image: &Image) -> Option<Write>
    ensures { IsNext image.now (closing_changes (state image.now)) result }
{
    let arrived = Write {
        at: header::CURRENT,
        word: image.next(),
    };
    header_write(image, &[CLOSED, arrived, MARK_CLEARED])
}
