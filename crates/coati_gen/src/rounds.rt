ghost use Rattle.std.specs.Prelude.{◌≡◌, ◌↔◌, ◌<◌, Err, IfOk};
ghost use Rattle.coati_gen.specs.Generated.{generated};

use crate::GenFault;
use crate::text::input;
use std::alloc::Global;

/// The greatest number of rounds.
const ROUNDS: u16 = 200;

/// An input of so many rounds, at most 200: a source, and a trace with as many power periods and
/// postings.
pub fn generate(alloc: Global, n: u16) -> Result<Vec<u8>, GenFault>
    ensures text { IfOk result (λ text. text.items ≡ generated n) }
    ensures too_big { (result ≡ Err GenFault.TooBig) ↔ (200 < n) }
{
    if n > ROUNDS {
        return Err(GenFault::TooBig);
    }
    input(alloc, u32::from(n)).map_err(|_| GenFault::OutOfMemory)
}
