// A source in memory, which fails where it is told to.
ghost use Rattle.std.specs.Prelude.{◌≡◌, ◌↔◌, ◌<◌, [], length, Some, IfOk, IsErr};
ghost use Rattle.std.specs.Io.{ReadsAtMost};
ghost use Rattle.std.specs.Io.KnownBytes.{ReadConsumes};
ghost use Rattle.coati_io.specs.Counts.{CountsMoved};
ghost use Rattle.coati_io.specs.Causes.{HasCause, Succeeds};
ghost use Rattle.coati_io.specs.Memory.{FailsNext, new_source, next_piece, after_read, filled_buffer};

use crate::{Failed, Source};
use std::marker::Model;

/// A source in memory, which gives its bytes in pieces and fails where it is told to.
#[derive(Drop)]
pub struct MemSource {
    bytes: Vec<u8>,
    at: usize,
    piece: usize,
    fails: Vec<u32>,
    calls: u32,
    reads: u64,
    faults: u64,
}

impl Model for MemSource {
    ghost use Rattle.std.specs.Prelude.{◌<◌, ◌≤◌, drop, vec_len};
    ghost use Rattle.coati_io.specs.Memory.{SourceInMemory};

    ghost Value = { SourceInMemory };

    ghost view = { λ s. record {
      left = drop s.at s.bytes.items;
      piece = s.piece;
      fails = s.fails.items;
      calls = s.calls;
      reads = s.reads;
      faults = s.faults;
    } };

    ghost invariant = { λ s. (s.at ≤ vec_len s.bytes) × (0 < s.piece) };
}

impl MemSource {
    /// A source of these bytes. One call gives at most `piece` of them, and the calls whose
    /// numbers, counted from 1, stand in `fails` fail. The number stays at the greatest u32.
    pub fn new(bytes: Vec<u8>, piece: usize, fails: Vec<u32>) -> Self
        requires { 0 < piece }
        ensures { result ≡ new_source bytes.items piece fails.items }
    {
        MemSource {
            bytes,
            at: 0,
            piece,
            fails,
            calls: 0,
            reads: 0,
            faults: 0,
        }
    }

    /// How many calls failed; at the greatest u64 the count stays.
    pub fn faults(&self) -> u64
        ensures { result ≡ self.now.faults }
    {
        self.faults
    }
}

impl Source for MemSource {
    ghost left = { λ s. Some s.left };

    ghost faults = { λ s. s.faults };

    ghost reads = { λ s. s.reads };

    ghost sound = { λ s. s.fails ≡ [] };

    fn read(&mut self, buf: &mut [u8]) -> Result<usize, Failed>
        requires { 0 < length buf.old }
        ensures failed { IsErr result ↔ FailsNext self.old.fails self.old.calls }
        ensures amount { IfOk result (λ n. n ≡ next_piece self.old (length buf.old)) }
        ensures state { self.new ≡ after_read self.old result }
        ensures filled { buf.new ≡ filled_buffer buf.old self.old.left result }

        // What a source owes.
        ensures bound { ReadsAtMost result buf.new }
        ensures bytes { ReadConsumes (Some self.old.left) (Some self.new.left) result buf.new }
        ensures cause { HasCause self.old.faults self.new.faults result }
        ensures counted { CountsMoved self.old.reads self.new.reads result }
        ensures steady { self.old.fails ≡ [] →
            Succeeds self.old.faults self.new.faults result × (self.new.fails ≡ []) }
    {
        self.calls = self.calls.saturating_add(1);
        if self.fails.contains(&self.calls) {
            self.faults = self.faults.saturating_add(1);
            return Err(Failed);
        }
        let n = buf.len().min(self.piece).min(self.bytes.len() - self.at);
        buf[..n].copy_from_slice(&self.bytes[self.at..self.at + n]);
        self.at += n;
        self.reads = self.reads.saturating_add(n.min(1) as u64);
        Ok(n)
    }
}
