// A sink in memory, which fails where it is told to and where it is full.
ghost use Rattle.std.specs.Prelude.{◌≡◌, ◌↔◌, ◌+◌, ◌<◌, ◌≤◌, min, max, length, Some, IfOk, OnOk, OnErr, IsErr};
ghost use Rattle.std.specs.Io.KnownBytes.{WriteAppends};
ghost use Rattle.coati_io.specs.Counts.{CountsMoved};
ghost use Rattle.coati_io.specs.Causes.{HasCause, Succeeds};
ghost use Rattle.coati_io.specs.Memory.{RefusesWrite, new_sink, after_write, spare_room};

use crate::{Failed, Sink};
use coati_word::OutOfMemory;
use std::alloc::Global;
use std::marker::Model;

/// A sink in memory, which takes bytes in pieces and fails where it is told to and where it is
/// full.
#[derive(Drop)]
pub struct MemSink {
    bytes: Vec<u8>,
    room: usize,
    piece: usize,
    fails: Vec<u32>,
    calls: u32,
    writes: u64,
    faults: u64,
}

impl Model for MemSink {
    ghost use Rattle.std.specs.Prelude.{◌+◌, ◌<◌, ◌≤◌, vec_len, vec_capacity};
    ghost use Rattle.coati_io.specs.Memory.{SinkInMemory};

    ghost Value = { SinkInMemory };

    ghost view = { λ s. record {
      taken = s.bytes.items;
      room = s.room;
      piece = s.piece;
      fails = s.fails.items;
      calls = s.calls;
      writes = s.writes;
      faults = s.faults;
    } };

    ghost invariant = { λ s. (vec_len s.bytes + s.room ≤ vec_capacity s.bytes) × (0 < s.piece) };
}

impl MemSink {
    /// A sink without room. One call takes at most `piece` bytes, and the calls whose numbers,
    /// counted from 1, stand in `fails` fail. The number stays at the greatest u32.
    pub fn new(alloc: Global, piece: usize, fails: Vec<u32>) -> Self
        requires { 0 < piece }
        ensures { result ≡ new_sink piece fails.items }
    {
        MemSink {
            bytes: Vec::new(alloc),
            room: 0,
            piece,
            fails,
            calls: 0,
            writes: 0,
            faults: 0,
        }
    }

    /// Makes room for `n` bytes where there is less. A refusal changes nothing.
    pub fn reserve(&mut self, n: usize) -> Result<(), OutOfMemory>
        ensures room { OnOk result (self.new ≡ record self.old { room = max self.old.room n }) }
        ensures refused { OnErr result ((self.new ≡ self.old) × (self.old.room < n)) }
    {
        if self.room < n {
            self.bytes.reserve(n)?;
            self.room = n;
        }
        Ok(())
    }

    /// The bytes taken so far.
    pub fn taken(&self) -> &[u8]
        ensures { result.now ≡ self.now.taken }
    {
        &self.bytes
    }

    /// How many calls failed; at the greatest u64 the count stays.
    pub fn faults(&self) -> u64
        ensures { result ≡ self.now.faults }
    {
        self.faults
    }
}

impl Sink for MemSink {
    ghost taken = { λ s. Some s.taken };

    ghost faults = { λ s. s.faults };

    ghost writes = { λ s. s.writes };

    ghost spare = { λ s. spare_room s.fails s.room };

    fn write(&mut self, buf: &[u8]) -> Result<usize, Failed>
        requires { 0 < length buf.now }
        ensures failed { IsErr result ↔ RefusesWrite self.old (length buf.now) }
        ensures amount { IfOk result (λ n. n ≡ min self.old.piece (length buf.now)) }
        ensures state { self.new ≡ after_write self.old buf.now result }

        // What a sink owes.
        ensures bound { IfOk result (λ n. (0 < n) × (n ≤ length buf.now)) }
        ensures bytes { WriteAppends (Some self.old.taken) (Some self.new.taken) result buf.now }
        ensures cause { HasCause self.old.faults self.new.faults result }
        ensures counted { CountsMoved self.old.writes self.new.writes result }
        ensures steady { length buf.now ≤ spare_room self.old.fails self.old.room →
            Succeeds self.old.faults self.new.faults result
            × IfOk result (λ n.
            spare_room self.old.fails self.old.room
            ≤ spare_room self.new.fails self.new.room + n) }
    {
        self.calls = self.calls.saturating_add(1);
        let n = buf.len().min(self.piece);
        if self.fails.contains(&self.calls) || self.room < n {
            self.faults = self.faults.saturating_add(1);
            return Err(Failed);
        }
        self.bytes.extend_from_slice(&buf[..n]).unwrap();
        self.room -= n;
        self.writes = self.writes.saturating_add(1);
        Ok(n)
    }
}
