ghost use Rattle.std.specs.Prelude.{◌≡◌};
ghost use Rattle.nv_memory.specs.InRange.{InRange};
ghost use Rattle.nv_memory.specs.State.{state};
ghost use Rattle.commit_log.specs.Left.{event_left, unit_left, writes_left};

use crate::counts::{flagged_words, unapplied_words};
use crate::headers::undone;
use crate::merges::into_tx_writes;
use commit_log::Marker;
use nv_memory::{Image, header};

/// The writes that the commit under way has left; none where none is.
pub fn commit_writes(image: &Image) -> u32
    requires { InRange (state image.now) }
    ensures { result ≡ writes_left (state image.now) }
{
    match Marker::of(image) {
        Marker::Clear => 0,
        Marker::IntoTx => into_tx_writes(image),
        Marker::Unit => unit_writes(image),
        Marker::Event => event_writes(image),
    }
}

// Those of a unit's commit: the variables, both logs, the flags, the unit's end, the place.
fn unit_writes(image: &Image) -> u32
    requires { InRange (state image.now) }
    ensures { result ≡ unit_left (state image.now) }
{
    unapplied_words(image)
        + undone(image, header::TX_LENGTH, 0)
        + undone(image, header::TASK_LENGTH, 0)
        + flagged_words(image)
        + undone(image, header::OPEN, 0)
        + undone(image, header::CURRENT, image.next())
        + 1
}

// Those of an event's commit: the variables, the head, the marker.
fn event_writes(image: &Image) -> u32
    requires { InRange (state image.now) }
    ensures { result ≡ event_left (state image.now) }
{
    unapplied_words(image) + undone(image, header::HEAD, image.head_next()) + 1
}
