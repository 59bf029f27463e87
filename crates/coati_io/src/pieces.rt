//! A text that is sent while it is made.
ghost use Rattle.std.specs.Prelude.{◌≡◌, ◌+◌, ◌<◌, ◌≤◌, [], decimal, length};
ghost use Rattle.coati_io.specs.declared.piece.TheConstants.{PIECE_BYTES};
ghost use Rattle.coati_io.specs.Sending.{Finishes, IsSending, Puts};

use crate::piece::{PIECE_BYTES, Piece};
use crate::taking::send_on;
use crate::{Failed, Sink};
use itoa::Buffer;

/// A text on its way into a sink, in pieces. Where the sink fails, what comes behind is dropped,
/// and `finish` tells it.
#[derive(Drop)]
pub struct Pieces<'a, K> {
    sink: &'a mut K,
    piece: &'a mut Piece,
    failed: bool,
}

impl<'a, K: Sink> Pieces<'a, K> {
    /// A text of which nothing was put yet. The piece is all the memory that it needs.
    pub fn new(sink: &'a mut K, piece: &'a mut Piece) -> Pieces<'a, K>
        ensures same_sink { result.sink.ghost_name ≡ sink.entry.ghost_name }
        ensures sends { IsSending K.taken K.faults K.spare sink.old result [] }
    {
        piece.clear();
        Pieces {
            sink,
            piece,
            failed: false,
        }
    }

    /// Puts bytes behind what was put before.
    pub fn put(&mut self, bytes: &[u8])
        ensures { Puts K.taken K.faults K.spare self.old self.new bytes.now }
    {
        self.make_room(bytes.len());
        if bytes.len() <= PIECE_BYTES {
            self.piece.hold(bytes);
        } else {
            self.send(bytes);
        }
    }

    /// Puts the decimal of a number.
    pub fn put_decimal(&mut self, number: u32)
        ensures { Puts K.taken K.faults K.spare self.old self.new (decimal number) }
    {
        let mut buffer = Buffer::new();
        self.put(buffer.format(number).as_bytes());
    }

    /// Sends what is left. An error tells that the sink failed, now or before.
    pub fn finish(&mut self) -> Result<(), Failed>
        ensures { Finishes K.taken K.faults K.spare self.old self.new result }
    {
        self.send_held();
        if self.failed { Err(Failed) } else { Ok(()) }
    }

    // Sends what is held where so many bytes do not fit behind it.
    fn make_room(&mut self, count: usize)
        ensures puts { Puts K.taken K.faults K.spare self.old self.new [] }
        ensures fits { count ≤ PIECE_BYTES → length self.new.piece.now + count ≤ PIECE_BYTES }
        ensures empty { PIECE_BYTES < count → self.new.piece.now ≡ [] }
    {
        if count > self.piece.room() {
            self.send_held();
        }
    }

    fn send_held(&mut self)
        ensures puts { Puts K.taken K.faults K.spare self.old self.new [] }
        ensures empty { self.new.piece.now ≡ [] }
    {
        self.failed = send_on(self.failed, self.sink, self.piece.bytes());
        self.piece.clear();
    }

    fn send(&mut self, bytes: &[u8])
        requires { self.old.piece.now ≡ [] }
        ensures { Puts K.taken K.faults K.spare self.old self.new bytes.now }
    {
        self.failed = send_on(self.failed, self.sink, bytes);
    }
}
