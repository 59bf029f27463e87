ghost use Rattle.std.specs.Prelude.{◌≡◌, ◌+◌, min};
ghost use Rattle.worked_bodies.specs.Noted.{IsNoted};

use word_cpu::View;

/// Words of which a store takes three steps: its word is noted, then its value, and then it is
/// made. Loads are counted.
#[derive(Drop)]
pub struct NotedWords {
    pub words: Vec<u16>,
    pub word: u16,
    pub value: u16,
    pub loads: u32,
}

impl View for NotedWords {
    ghost meaning = { record {
      words = λ v. v.words.items;
      begun = λ v word value part. IsNoted v.word v.value word value part;
      loaded = λ old word new. new.loads ≡ min (old.loads + 1) 4294967295;
      stored = λ old word value part new is_last. new.loads ≡ old.loads;
    } };

    fn load(&mut self, word: u16) -> u16 {
        self.loads = self.loads.saturating_add(1);
        self.words[word as usize]
    }

    fn store(&mut self, word: u16, value: u16, part: u8) -> bool {
        match part {
            0 => {
                self.word = word;
                false
            }
            1 => {
                self.value = value;
                false
            }
            _ => {
                self.words[self.word as usize] = self.value;
                true
            }
        }
    }

    ghost nothing_before = { λ view word value. tt };
}
