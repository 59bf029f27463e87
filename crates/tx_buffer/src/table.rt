ghost use Rattle.std.specs.Prelude.{ℕ, ◌≡◌, ◌<◌, Some, slice_get};
ghost use Rattle.nv_memory.specs.InRange.{InRange};
ghost use Rattle.nv_memory.specs.Logs.{HasLog, log_index};
ghost use Rattle.nv_memory.specs.State.{state};

use nv_memory::{Image, Log};

/// For each word, the place of its pair in a log, as one walk finds them.
pub fn places(image: &Image, log: Log) -> [Option<u16>; 256]
    requires range { InRange (state image.now) }
    requires log { HasLog image.now.k log }
    ensures { (word : ℕ) → word < 256
        → slice_get result word ≡ Some (log_index (state image.now) log word) }
{
    let mut places = [None; 256];
    for i in 0..image.length(log) {
        let (word, _) = image.pair(log, i);
        places[word as usize] = Some(i);
    }
    places
}
