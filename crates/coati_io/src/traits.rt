// What a source and a sink owe to their callers.
ghost use Rattle.std.specs.Prelude.{◌+◌, ◌<◌, ◌≤◌, ℕ, List, length, IfOk};
ghost use Rattle.std.specs.declared.option.Option.{Option};
ghost use Rattle.std.specs.Io.{ReadsAtMost};
ghost use Rattle.std.specs.Io.KnownBytes.{ReadConsumes, WriteAppends};
ghost use Rattle.coati_io.specs.Counts.{CountsMoved};
ghost use Rattle.coati_io.specs.Causes.{HasCause, Succeeds};

/// A read or a write failed, and moved nothing.
#[derive(Clone, Copy, Debug, PartialEq, Eq)]
pub struct Failed;

/// Bytes that come in pieces, up to an end.
pub trait Source {
    // The bytes still to come, where the source tells them.
    ghost left: { Self → Option (List ℕ) };

    // How often it has failed. At the greatest u64 the count stays.
    ghost faults: { Self → ℕ };

    // How many of its reads gave bytes, as far as it counts them.
    ghost reads: { Self → ℕ };

    // No read of it fails.
    ghost sound: { Self → Type 0 };

    /// Puts the next bytes at the front of `buf`, and answers how many; 0 is the end of input.
    fn read(&mut self, buf: &mut [u8]) -> Result<usize, Failed>
        requires { 0 < length buf.old }

        // Where they are told, none are given only at the end, and a failure consumes none.
        ensures bound { ReadsAtMost result buf.new }
        ensures bytes { ReadConsumes (left self.old) (left self.new) result buf.new }

        ensures cause { HasCause (faults self.old) (faults self.new) result }
        ensures counted { CountsMoved (reads self.old) (reads self.new) result }
        ensures steady { sound self.old →
            Succeeds (faults self.old) (faults self.new) result × sound self.new };
}

/// What takes bytes, piece by piece.
pub trait Sink {
    // The bytes taken so far, where the sink tells them.
    ghost taken: { Self → Option (List ℕ) };

    // How often it has failed. At the greatest u64 the count stays.
    ghost faults: { Self → ℕ };

    // How many of its writes took bytes, as far as it counts them.
    ghost writes: { Self → ℕ };

    // How many bytes it takes without failing.
    ghost spare: { Self → ℕ };

    /// Takes bytes from the front of `buf`, at least one, and answers how many.
    fn write(&mut self, buf: &[u8]) -> Result<usize, Failed>
        requires { 0 < length buf.now }

        ensures bound { IfOk result (λ n. (0 < n) × (n ≤ length buf.now)) }
        ensures bytes { WriteAppends (taken self.old) (taken self.new) result buf.now }

        ensures cause { HasCause (faults self.old) (faults self.new) result }
        ensures counted { CountsMoved (writes self.old) (writes self.new) result }
        ensures steady { length buf.now ≤ spare self.old →
            Succeeds (faults self.old) (faults self.new) result
            × IfOk result (λ n. spare self.old ≤ spare self.new + n) };
}
