ghost use Rattle.std.specs.Prelude.{◌≡◌, ◌↔◌, IsNone};
ghost use Rattle.nv_memory.specs.InRange.{InRange};
ghost use Rattle.nv_memory.specs.Seats.{Memory};
ghost use Rattle.nv_memory.specs.State.{Writes, state};
ghost use Rattle.nv_memory.specs.Words.{doomed};
ghost use Rattle.tx_buffer.specs.Next.{IsNext};
ghost use Rattle.buffi_sets.specs.Undo.{doom_change, restart_changes, undo_changes};

use nv_memory::{Image, Write, header};
use tx_buffer::{clear_write, header_write};

/// The write that aborts the open transaction.
pub fn doom_write() -> Write
    ensures { (m : Memory) → Writes m doom_change result }
{
    Write {
        at: header::DOOM,
        word: 1,
    }
}

/// The next write of the undo of an aborted transaction. None exactly where none is aborted.
pub fn abort_write(image: &Image) -> Option<Write>
    requires { InRange (state image.now) }
    ensures next { IsNext image.now (undo_changes (state image.now)) result }
    ensures none { IsNone result ↔ doomed (state image.now) ≡ 0 }
{
    if !image.is_doomed() {
        return None;
    }
    match clear_write(image) {
        Some(write) => Some(write),
        None => restart_write(image),
    }
}

// The next write that takes the program back to the first task of the transaction and closes it.
fn restart_write(image: &Image) -> Option<Write>
    ensures next { IsNext image.now (restart_changes (state image.now)) result }
{
    let back = Write {
        at: header::CURRENT,
        word: image.first(),
    };
    let closed = Write {
        at: header::OPEN,
        word: 0,
    };
    let spared = Write {
        at: header::DOOM,
        word: 0,
    };
    header_write(image, &[back, closed, spared])
}
