ghost use Rattle.std.specs.Prelude.{◌≡◌, ◌↔◌, IsNone};
ghost use Rattle.nv_memory.specs.InRange.{InRange};
ghost use Rattle.nv_memory.specs.State.{state};
ghost use Rattle.nv_memory.specs.Words.{mark};
ghost use Rattle.tx_buffer.specs.Next.{IsNext};
ghost use Rattle.commit_log.specs.Changes.{commit_changes};

use crate::event::event_write;
use crate::into_tx::into_tx_write;
use crate::marker::Marker;
use crate::unit::unit_write;
use nv_memory::{Image, Write};

/// The next write of the commit under way. None exactly where the marker is clear.
pub fn next_write(image: &Image) -> Option<Write>
    requires { InRange (state image.now) }
    ensures next { IsNext image.now (commit_changes (state image.now)) result }
    ensures none { IsNone result ↔ (mark (state image.now) ≡ 0) }
{
    match Marker::of(image) {
        Marker::Clear => None,
        Marker::IntoTx => into_tx_write(image),
        Marker::Unit => unit_write(image),
        Marker::Event => event_write(image),
    }
}
