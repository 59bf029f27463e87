ghost use Rattle.std.specs.Prelude.{ℕ, ◌≡◌, ◌+◌, ◌<◌, IsTrue, IsFalse, length, slice_index, slice_set};
ghost use Rattle.word_cpu.specs.Meaning.{Meaning};

/// A view of the variable words. A call is one machine step and writes at most one word of memory,
/// so a store may take several calls, its parts.
pub trait View {
    // What the view means to the machine: the words that it stands for, which parts of a store are
    // written, and what a load and a part of a store make of it.
    ghost meaning: { Meaning Self };

    /// The word.
    fn load(&mut self, word: u16) -> u16
        requires { word < length (meaning.words self.old) }
        ensures value { result ≡ slice_index (meaning.words self.old) word }
        ensures kept { meaning.words self.new ≡ meaning.words self.old }
        ensures loaded { meaning.loaded self.old word self.new };

    /// A part of a store, counted from 0, after those before it. It answers true where it was the
    /// last.
    fn store(&mut self, word: u16, value: u16, part: u8) -> bool
        requires word { word < length (meaning.words self.old) }
        requires begun { meaning.begun self.old word value part }
        ensures last { IsTrue result →
            meaning.words self.new ≡ slice_set (meaning.words self.old) word value }
        ensures kept { IsFalse result → meaning.words self.new ≡ meaning.words self.old }
        ensures few { IsFalse result → part < 2 }
        ensures begun { IsFalse result → meaning.begun self.new word value (part + 1) }
        ensures stored { meaning.stored self.old word value part self.new result };

    // Before the first part nothing is to be written.
    ghost nothing_before: { (view : Self) (word value : ℕ) → meaning.begun view word value 0 };
}
