// A whole text.
ghost use Rattle.std.specs.Prelude.{◌≡◌, ◌+◌, ◌<◌, ◌≤◌, length, OnOk, IfErr};
ghost use Rattle.std.specs.Io.KnownBytes.{Appends};
ghost use Rattle.coati_io.specs.Causes.{HasCause, Succeeds};
ghost use Rattle.coati_io.specs.Ends.{StopsWriting};

use crate::Sink;
use thiserror::Error;

/// Why a text was not written whole: the sink failed after it had taken this many bytes.
#[derive(Debug, Drop, PartialEq, Eq, Error)]
pub enum WriteEnd {
    #[error("the sink failed after {0} bytes")]
    Fault(usize),
}

/// Appends all of the bytes, or exactly as many as the fault says.
pub fn write_all<K: Sink>(sink: &mut K, bytes: &[u8]) -> Result<(), WriteEnd>
    ensures all { OnOk result (Appends (K.taken sink.old) (K.taken sink.new) bytes.now) }
    ensures stopped { IfErr result (StopsWriting (K.taken sink.old) (K.taken sink.new) bytes.now) }

    ensures cause { HasCause (K.faults sink.old) (K.faults sink.new) result }
    ensures counted { K.writes sink.new ≤ K.writes sink.old + length bytes.now }
    ensures steady { length bytes.now ≤ K.spare sink.old →
        Succeeds (K.faults sink.old) (K.faults sink.new) result
        × (K.spare sink.old ≤ K.spare sink.new + length bytes.now) }
{
    let mut sent = 0;
    while sent < bytes.len() {
        match sink.write(&bytes[sent..]) {
            Ok(n) => sent += n,
            Err(_) => return Err(WriteEnd::Fault(sent)),
        }
    }
    Ok(())
}
