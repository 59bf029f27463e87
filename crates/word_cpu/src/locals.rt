ghost use Rattle.std.specs.Prelude.{◌≡◌, ◌-◌, ◌<◌, ◌≤◌, ◌++◌, length, replicate, slice_index_or, slice_set};

use arrayvec::ArrayVec;
use std::marker::Model;

/// The 32 locals of a body. A contract sees the list of them.
#[derive(Drop)]
pub(crate) struct Locals {
    words: ArrayVec<u16, 32>,
}

impl Model for Locals {
    ghost use Rattle.std.specs.Prelude.{ℕ, List, ◌≡◌, length};

    ghost Value = { List ℕ };

    ghost view = { λ l. l.words.items };

    ghost invariant = { λ l. length l.words.items ≡ 32 };
}

impl Locals {
    /// The parameters, and 0 behind them.
    pub fn new(params: &[u16]) -> Locals
        requires { length params.now ≤ 32 }
        ensures { result ≡ params.now ++ replicate (32 - length params.now) 0 }
    {
        let mut words = [0; 32];
        words[..params.len()].copy_from_slice(params);
        Locals {
            words: ArrayVec::from(words),
        }
    }

    pub fn get(&self, local: u16) -> u16
        requires { local < 32 }
        ensures { result ≡ slice_index_or self.now local 0 }
    {
        self.words[local as usize]
    }

    pub fn set(&mut self, local: u16, word: u16)
        requires { local < 32 }
        ensures { self.new ≡ slice_set self.old local word }
    {
        self.words[local as usize] = word;
    }
}
