ghost use Rattle.std.specs.Prelude.{◌≡◌};
ghost use Rattle.nv_memory.specs.InRange.{InRange};
ghost use Rattle.nv_memory.specs.State.{state};
ghost use Rattle.buffi_sets.specs.Undo.{undo_left};

use crate::counts::flagged_words;
use crate::headers::undone;
use nv_memory::{Image, header};

/// The writes that an undo has left; none where no transaction is aborted.
#[tactic(auto, using(crate::proofs::Counting::undo_is, crate::proofs::Counting::no_undo))]
pub fn undo_writes(image: &Image) -> u32
    requires { InRange (state image.now) }
    ensures { result ≡ undo_left (state image.now) }
{
    if !image.is_doomed() {
        return 0;
    }
    undone(image, header::TX_LENGTH, 0)
        + flagged_words(image)
        + undone(image, header::CURRENT, image.first())
        + undone(image, header::OPEN, 0)
        + undone(image, header::DOOM, 0)
}
