ghost use Rattle.std.specs.Prelude.{[]};
ghost use Rattle.coati_io.specs.Sending.{IsOnItsWay, SendsOn};
ghost use Rattle.coati_io.specs.Writing.{output_edge};

use crate::{Sink, write_all};

/// Sends the last bytes of what was put, unless the sink has failed before. Whether it has failed
/// then.
pub(crate) fn send_on<K: Sink>(failed: bool, sink: &mut K, bytes: &[u8]) -> bool
    ensures { SendsOn K.taken K.faults K.spare failed sink.old bytes.now sink.new result }
{
    failed || fails_to_take(sink, bytes)
}

/// Whether the sink fails before it has taken all of the bytes.
fn fails_to_take<K: Sink>(sink: &mut K, bytes: &[u8]) -> bool
    ensures { IsOnItsWay result (output_edge K.taken K.faults K.spare sink.old sink.new)
        (K.spare sink.new) [] bytes.now }
{
    match write_all(sink, bytes) {
        Ok(()) => false,
        Err(_) => true,
    }
}
