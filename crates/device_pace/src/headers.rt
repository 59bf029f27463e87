ghost use Rattle.std.specs.Prelude.{◌≡◌, ◌<◌, ◌≤◌};
ghost use Rattle.nv_memory.specs.Seats.{Seat};
ghost use Rattle.nv_memory.specs.State.{set_to, state};
ghost use Rattle.commit_log.specs.Left.{undone as undone_of};

use nv_memory::Image;

/// One write where a header word isn't what it is to be.
#[tactic(auto, using(nv_memory::proofs::Seats::header_is))]
pub fn undone(image: &Image, at: u16, word: u16) -> u32
    requires { at < 12 }
    ensures count { result ≡ undone_of (state image.now) (set_to (Seat.Header at) word) }
    ensures low { result ≤ 1 }
{
    if image.get(at) == word { 0 } else { 1 }
}
