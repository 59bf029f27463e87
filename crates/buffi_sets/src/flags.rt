ghost use Rattle.std.specs.Prelude.{◌↔◌, ◌<◌, IfSome, IsNone};
ghost use Rattle.nv_memory.specs.InRange.{InRange};
ghost use Rattle.nv_memory.specs.State.{Writes, state};
ghost use Rattle.tx_buffer.specs.Next.{IsNext};
ghost use Rattle.buffi_sets.specs.Flags.{HasNoFlag, NeedsNoFlag, flag_change, unflag_attempt_changes};

use nv_memory::{Image, Write};
use tx_buffer::look;

/// The write that sets the attempt's flag of a word that a task reads from the variables. None
/// exactly where the word stands in a log of the unit or its flag is set.
pub fn flag_write(image: &Image, word: u16) -> Option<Write>
    requires range { InRange (state image.now) }
    requires word { word < image.now.n }
    ensures none { IsNone result ↔ NeedsNoFlag (state image.now) word }
    ensures write { IfSome result (λ write. Writes image.now (flag_change word) write) }
{
    if image.attempt_flag(word) || look(image, word).is_some() {
        return None;
    }
    Some(Write {
        at: image.layout().attempt_flag(word),
        word: 1,
    })
}

/// The write that takes back the attempt's flag of the least word that has one. None exactly where
/// no word has.
pub fn unflag_write(image: &Image) -> Option<Write>
    requires { InRange (state image.now) }
    ensures next { IsNext image.now (unflag_attempt_changes (state image.now)) result }
    ensures none { IsNone result ↔ HasNoFlag (state image.now) }
{
    let layout = image.layout();
    for word in 0..layout.n {
        if image.attempt_flag(word) {
            return Some(Write {
                at: layout.attempt_flag(word),
                word: 0,
            });
        }
    }
    None
}
