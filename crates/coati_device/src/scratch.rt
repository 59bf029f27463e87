ghost use Rattle.std.specs.Prelude.{◌≡◌, ◌≤◌, replicate};

use std::marker::Model;
use word_cpu::View;

/// The words of the variables as a top half has them: none is a variable. It reads and stores none
/// either.
#[derive(Drop)]
pub struct Scratch {
    words: [u16; 256],
    count: u16,
}

impl Model for Scratch {
    ghost use Rattle.std.specs.Prelude.{ℕ, List, ◌≤◌, take};

    ghost Value = { List ℕ };

    ghost view = { λ s. take s.count s.words };

    ghost invariant = { λ s. s.count ≤ 256 };
}

impl Scratch {
    /// So many words, all 0.
    pub fn new(count: u16) -> Scratch
        requires { count ≤ 256 }
        ensures { result ≡ replicate count 0 }
    {
        Scratch {
            words: [0; 256],
            count,
        }
    }
}

impl View for Scratch {
    ghost use Rattle.std.specs.Prelude.{refl};
    ghost use Rattle.coati_device.specs.ScratchView.{scratch_view};

    ghost meaning = { scratch_view };

    fn load(&mut self, word: u16) -> u16 {
        self.words[word as usize]
    }

    fn store(&mut self, word: u16, value: u16, _part: u8) -> bool {
        self.words[word as usize] = value;
        true
    }

    ghost nothing_before = { λ view word value. refl };
}
