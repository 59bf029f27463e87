ghost use Rattle.std.specs.Prelude.{◌≡◌, ◌↔◌, ◌<◌, IfSome, IsNone};
ghost use Rattle.nv_memory.specs.InRange.{InRange};
ghost use Rattle.nv_memory.specs.State.{state};
ghost use Rattle.buffi_sets.specs.Conflict.{HasNoConflict, IsConflict, is_shared_read};

use nv_memory::{Image, Log};

/// The least word that the oldest held event writes and that the open transaction read before it
/// wrote it, or, with `attempt`, that the attempt did. None exactly where there is none.
pub fn conflict(image: &Image, attempt: bool) -> Option<u16>
    requires { InRange (state image.now) }
    ensures none { IsNone result ↔ HasNoConflict (state image.now) attempt }
    ensures least { IfSome result (λ word. IsConflict (state image.now) attempt word) }
{
    let log = Log::Entry(image.layout().slot(image.head()));
    let mut least = None;
    for i in 0..image.length(log) {
        let (word, _) = image.pair(log, i);
        if least.is_none_or(|least| word < least) && is_shared_read(image, attempt, word) {
            least = Some(word);
        }
    }
    least
}

// Whether the flags say that the tasks read a word before they wrote it.
fn is_shared_read(image: &Image, attempt: bool, word: u16) -> bool
    requires { word < image.now.n }
    ensures { result ≡ is_shared_read (state image.now) attempt word }
{
    image.is_open() && image.tx_flag(word) || attempt && image.attempt_flag(word)
}
