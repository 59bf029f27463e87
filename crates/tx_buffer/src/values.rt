ghost use Rattle.std.specs.Prelude.{◌≡◌};
ghost use Rattle.nv_memory.specs.InRange.{InRange};
ghost use Rattle.nv_memory.specs.StandsFor.{unit_value};
ghost use Rattle.nv_memory.specs.State.{state};

use nv_memory::{Image, Log};

/// The open unit's value of a word: the task log comes before the transaction log. None exactly
/// where neither has the word.
pub fn look(image: &Image, word: u16) -> Option<u16>
    requires { InRange (state image.now) }
    ensures { result ≡ unit_value (state image.now) word }
{
    match image.find(Log::Task, word) {
        Some(value) => Some(value),
        None => image.find(Log::Tx, word),
    }
}
