ghost use Rattle.std.specs.Prelude.{◌≡◌, true, refl, slice_set};

use word_cpu::View;

/// Words of which a store is one step.
#[derive(Drop)]
pub struct PlainWords {
    pub words: Vec<u16>,
}

impl View for PlainWords {
    ghost meaning = { record {
      words = λ v. v.words.items;
      begun = λ v word value part. part ≡ 0;
      loaded = λ old word new. new ≡ old;
      stored = λ old word value part new is_last.
          (is_last ≡ true) × (new.words.items ≡ slice_set old.words.items word value);
    } };

    fn load(&mut self, word: u16) -> u16 {
        self.words[word as usize]
    }

    fn store(&mut self, word: u16, value: u16, _part: u8) -> bool {
        self.words[word as usize] = value;
        true
    }

    ghost nothing_before = { λ view word value. refl };
}
