//! The memory in which a piece of a text is held.
ghost use Rattle.std.specs.Prelude.{◌≡◌, ◌+◌, ◌≤◌, [], ◌++◌, length, IfOk};
ghost use Rattle.coati_io.specs.declared.piece.TheConstants.{PIECE_BYTES};

use coati_word::OutOfMemory;
use std::alloc::Global;
use std::marker::Model;

/// The most bytes that are held.
pub(crate) const PIECE_BYTES: usize = 32768;

/// Memory for a piece of a text, of which it holds the bytes.
#[derive(Drop)]
pub struct Piece {
    bytes: Vec<u8>,
}

impl Model for Piece {
    ghost use Rattle.std.specs.Prelude.{ℕ, List, ◌≤◌, vec_capacity, vec_len};
    ghost use Rattle.coati_io.specs.declared.piece.TheConstants.{PIECE_BYTES};

    ghost Value = { List ℕ };

    ghost view = { λ s. s.bytes.items };

    ghost invariant = { λ s. (vec_len s.bytes ≤ PIECE_BYTES)
        × (PIECE_BYTES ≤ vec_capacity s.bytes) };
}

impl Piece {
    /// Takes all the memory that is ever held in it.
    pub fn new(alloc: Global) -> Result<Piece, OutOfMemory>
        ensures { IfOk result (λ piece. piece ≡ []) }
    {
        let bytes = Vec::with_capacity(alloc, PIECE_BYTES)?;
        Ok(Piece { bytes })
    }

    pub(crate) fn bytes(&self) -> &[u8]
        ensures { result.now ≡ self.now }
    {
        &self.bytes
    }

    /// How many more bytes it can hold.
    pub(crate) fn room(&self) -> usize
        ensures { result + length self.now ≡ PIECE_BYTES }
    {
        PIECE_BYTES - self.bytes.len()
    }

    pub(crate) fn hold(&mut self, bytes: &[u8])
        requires { length self.old + length bytes.now ≤ PIECE_BYTES }
        ensures { self.new ≡ self.old ++ bytes.now }
    {
        self.bytes.extend_from_slice(bytes).unwrap();
    }

    pub(crate) fn clear(&mut self)
        ensures { self.new ≡ [] }
    {
        self.bytes.clear();
    }
}
