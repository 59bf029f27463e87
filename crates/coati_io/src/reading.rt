// A whole source.
ghost use Rattle.std.specs.Prelude.{◌≡◌, ◌≢◌, ◌↔◌, ℕ, ◌+◌, ◌<◌, ◌≤◌, length, IfOk, IfErr, IfSome, IsErrOf};
ghost use Rattle.coati_io.specs.Causes.{Rose};
ghost use Rattle.coati_io.specs.Ends.{ConsumesExactly, ReadsWhole, StopsReading};

use crate::Source;
use std::alloc::Global;
use thiserror::Error;

/// Why a source was not read to its end.
#[derive(Debug, Drop, PartialEq, Eq, Error)]
pub enum ReadEnd {
    #[error("the source failed")]
    Fault,
    #[error("the input is too large")]
    TooLarge,
    #[error("out of memory")]
    OutOfMemory,
}

// The most bytes that one read asks for.
const PIECE: usize = 4096;

/// Reads all bytes up to the end, of which there may be `max`.
pub fn read_all<S: Source>(alloc: Global, src: &mut S, max: usize) -> Result<Vec<u8>, ReadEnd>
    ensures whole { IfOk result (λ v. ReadsWhole (S.left src.old) (S.left src.new) max v.items) }
    ensures stopped { IfErr result (StopsReading (S.left src.old) (S.left src.new) max) }

    // Where the bytes are told, this is the answer exactly where the source gave byte `max + 1`.
    ensures too_large { IfSome (S.left src.old) (λ _.
        IsErrOf result ReadEnd.TooLarge
        ↔ ConsumesExactly (S.left src.old) (S.left src.new) (max + 1)) }
    ensures fits { IfSome (S.left src.old) (λ bytes.
        length bytes ≤ max → result ≢ Err ReadEnd.TooLarge) }

    ensures fault { IsErrOf result ReadEnd.Fault → Rose (S.faults src.old) (S.faults src.new) }
    ensures later { S.faults src.old ≤ S.faults src.new }
    ensures counted { S.reads src.new ≤ S.reads src.old + (max + 1) }
    ensures steady { S.sound src.old →
        (result ≢ Err ReadEnd.Fault) × (S.faults src.new ≡ S.faults src.old) × S.sound src.new }
{
    let mut bytes = Vec::new(alloc);
    let mut piece = [0u8; PIECE];
    loop {
        let room = max - bytes.len();
        // One byte more than may come, so that it shows.
        let asked = room.min(PIECE - 1) + 1;
        match src.read(&mut piece[..asked]) {
            Ok(0) => return Ok(bytes),
            Ok(n) if n > room => return Err(ReadEnd::TooLarge),
            Ok(n) => bytes
                .extend_from_slice(&piece[..n])
                .map_err(|_| ReadEnd::OutOfMemory)?,
            Err(_) => return Err(ReadEnd::Fault),
        }
    }
}
