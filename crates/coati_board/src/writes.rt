ghost use Rattle.std.specs.Prelude.{◌≡◌};
ghost use Rattle.nv_memory.specs.Seats.{written};
ghost use Rattle.nv_memory.specs.State.{Change, Writes};
ghost use Rattle.coati_board.specs.Written.{HasPut};

use nv_memory::{Image, Write};

/// Makes a write to one of the image's words.
#[tactic(auto, using(nv_memory::proofs::Puts::puts_one_word))]
pub fn put(image: &mut Image, write: Write)
    requires { (change : Change) × Writes image.old change write }
    ensures { (change : Change) → Writes image.old change write
        → HasPut image.old change image.new }
{
    let _layout = image.layout();
    image.put(write);
}
