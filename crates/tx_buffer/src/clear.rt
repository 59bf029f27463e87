ghost use Rattle.std.specs.Prelude.{◌↔◌, IsNone};
ghost use Rattle.nv_memory.specs.InRange.{InRange};
ghost use Rattle.nv_memory.specs.State.{state};
ghost use Rattle.tx_buffer.specs.Clear.{IsCleared, clear_changes};
ghost use Rattle.tx_buffer.specs.Next.{IsNext};

use nv_memory::{Image, Log, Write, header};

/// The next write that empties the transaction's log and takes back its flags. None exactly where
/// the length and all flags are 0.
pub fn clear_write(image: &Image) -> Option<Write>
    requires { InRange (state image.now) }
    ensures next { IsNext image.now (clear_changes (state image.now)) result }
    ensures none { IsNone result ↔ IsCleared (state image.now) }
{
    if image.length(Log::Tx) != 0 {
        return Some(Write {
            at: header::TX_LENGTH,
            word: 0,
        });
    }
    let layout = image.layout();
    for word in 0..layout.n {
        if image.tx_flag(word) {
            return Some(Write {
                at: layout.tx_flag(word),
                word: 0,
            });
        }
    }
    None
}
