ghost use Rattle.std.specs.Prelude.{◌≡◌, true};
ghost use Rattle.tx_buffer.specs.Next.{IsNext, are_headers, header_changes};

use nv_memory::{Image, Write};

/// The first of several writes of header words whose word doesn't stand yet. None exactly where
/// all stand.
pub fn header_write(image: &Image, writes: &[Write]) -> Option<Write>
    requires { are_headers writes.now ≡ true }
    ensures { IsNext image.now (header_changes writes.now) result }
{
    for write in writes {
        if image.get(write.at) != write.word {
            return Some(*write);
        }
    }
    None
}
