//! Where the devices are in the script: each raises its postings in their order.

ghost use Rattle.std.specs.Prelude.{◌≡◌, ◌+◌, ◌<◌, ◌≤◌, drop, length, slice_get};
ghost use Rattle.coati_device.specs.Cursors.{answered, count_of, cursor_of, first_cursor, moved, others, posting_at};
ghost use Rattle.coati_board.specs.Cursors.{HasPosting, first_cursors, first_place};

use coati_device::{Cursor, Device};
use serial_log::{Answer, Mark, MarkKind, Posted, Posting};

/// Where each device is at first.
pub fn first_cursors(postings: &[Posting]) -> [Cursor; 8]
    requires { length postings.now ≤ 4096 }
    ensures { result ≡ first_cursors postings.now }
{
    [
        first_cursor(postings, 0),
        first_cursor(postings, 1),
        first_cursor(postings, 2),
        first_cursor(postings, 3),
        first_cursor(postings, 4),
        first_cursor(postings, 5),
        first_cursor(postings, 6),
        first_cursor(postings, 7),
    ]
}

// Where a device is at first.
fn first_cursor(postings: &[Posting], device: u8) -> Cursor
    requires { length postings.now ≤ 4096 }
    ensures { result ≡ first_cursor postings.now device }
{
    Cursor {
        at: next_place(postings, device, 0),
        done: 0,
        left: count_of(postings, device),
    }
}

// The place of a device's first posting from a place on.
fn next_place(postings: &[Posting], device: u8, from: u32) -> u32
    requires from { from ≤ length postings.now }
    requires few { length postings.now ≤ 4096 }
    ensures { result ≡ from + others device (drop from postings.now) }
{
    let mut place = from;
    while (place as usize) < postings.len() && postings[place as usize].device != device {
        place += 1;
    }
    place
}

// How many postings a device has.
fn count_of(postings: &[Posting], device: u8) -> u32
    requires { length postings.now ≤ 4096 }
    ensures { result ≡ count_of device postings.now }
{
    let mut count = 0;
    for posting in postings {
        if posting.device == device {
            count += 1;
        }
    }
    count
}

/// The posting at a place of the script.
pub fn posting_at(postings: &[Posting], place: u32) -> Posting
    requires { place < length postings.now }
    ensures { result ≡ posting_at postings.now place }
{
    postings[place as usize]
}

/// The posting at a place of the script; none behind its end.
pub fn posting_there(postings: &[Posting], place: u32) -> Option<Posting>
    ensures { result ≡ slice_get postings.now place }
{
    postings.get(place as usize).copied()
}

/// The least place of a posting that is left; the script's end where none is.
pub fn first_place(cursors: &[Cursor; 8], end: u32) -> u32
    ensures { result ≡ first_place cursors.now end }
{
    let mut least = end;
    for cursor in cursors {
        least = least.min(cursor.at);
    }
    least
}

/// A posting was answered: its mark, and its device goes on to its next one. No memory is taken.
pub fn answer(
    postings: &[Posting],
    device: &mut Device,
    number: u8,
    posting: Posting,
    from: u32,
    at: u32,
    answer: Answer,
)
    requires number { number < 8 }
    requires eight { length device.old.cursors ≡ 8 }
    requires posting { HasPosting postings.now (cursor_of device.old.cursors number) }
    requires few { length postings.now ≤ 4096 }
    requires room { 0 < device.old.history.mark_room }
    ensures { device.new ≡ answered postings.now number posting from at answer device.old }
{
    let cursor = device.cursors[number as usize];
    device.cursors[number as usize] = moved(postings, number, cursor);
    device.history.push(Mark {
        at,
        kind: MarkKind::Posted(Posted {
            device: number,
            index: cursor.done + 1,
            event: posting.event,
            argument: posting.argument,
            from,
            answer,
        }),
    });
}

// Where a device is behind its next posting.
fn moved(postings: &[Posting], device: u8, cursor: Cursor) -> Cursor
    requires posting { HasPosting postings.now cursor }
    requires few { length postings.now ≤ 4096 }
    ensures { result ≡ moved postings.now device cursor }
{
    Cursor {
        at: next_place(postings, device, cursor.at + 1),
        done: cursor.done + 1,
        left: cursor.left - 1,
    }
}
