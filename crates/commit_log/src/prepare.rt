ghost use Rattle.std.specs.Prelude.{◌≡◌, ◌≤◌, ◌↔◌, ◌∷◌, [], IsNone};
ghost use Rattle.nv_memory.specs.InRange.{InRange};
ghost use Rattle.nv_memory.specs.Ring.{held_count, position_after};
ghost use Rattle.nv_memory.specs.State.{set_to, state};
ghost use Rattle.nv_memory.specs.Words.{head, head_next, head_next_seat, next, next_seat};
ghost use Rattle.tx_buffer.specs.Next.{IsNext};

use nv_memory::{Image, Write, header};
use tx_buffer::header_write;

/// The write of the place after a commit, before the marker is set. None exactly where it stands.
pub fn prepare_write(image: &Image, place: u16) -> Option<Write>
    ensures next { IsNext image.now (set_to next_seat place ∷ []) result }
    ensures none { IsNone result ↔ (next (state image.now) ≡ place) }
{
    header_write(
        image,
        &[Write {
            at: header::NEXT,
            word: place,
        }],
    )
}

/// The write of the position after the oldest entry, before its commit is marked. None exactly
/// where it stands.
pub fn prepare_event(image: &Image) -> Option<Write>
    requires range { InRange (state image.now) }
    requires held { 1 ≤ held_count (state image.now) }
    ensures next { let s = state image.now in
        IsNext image.now (set_to head_next_seat (position_after s.k (head s)) ∷ []) result }
    ensures none { let s = state image.now in
        IsNone result ↔ (head_next s ≡ position_after s.k (head s)) }
{
    header_write(
        image,
        &[Write {
            at: header::HEAD_NEXT,
            word: image.layout().position_after(image.head()),
        }],
    )
}
