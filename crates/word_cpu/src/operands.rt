ghost use Rattle.std.specs.Prelude.{◌≡◌, ◌<◌, ◌≤◌, [], ◌∷◌, drop, length, reverse, take};
ghost use Rattle.word_code.specs.Machine.{below, top};

use arrayvec::ArrayVec;
use coati_word::Message;
use std::marker::Model;

/// The operands of a body, at most 32. A contract sees the list of them, the last one first.
#[derive(Drop)]
pub(crate) struct Operands {
    words: ArrayVec<u16, 32>,
}

impl Model for Operands {
    ghost use Rattle.std.specs.Prelude.{ℕ, List, ◌≤◌, length, reverse};

    ghost Value = { List ℕ };

    ghost view = { λ o. reverse o.words.items };

    ghost invariant = { λ o. length o.words.items ≤ 32 };
}

impl Operands {
    pub fn new() -> Operands
        ensures { result ≡ [] }
    {
        Operands {
            words: ArrayVec::new(),
        }
    }

    pub fn push(&mut self, word: u16)
        requires { length self.old < 32 }
        ensures { self.new ≡ word ∷ self.old }
    {
        self.words.push(word);
    }

    /// Removes the last operand.
    pub fn pop(&mut self) -> u16
        requires { 0 < length self.old }
        ensures parts { self.old ≡ result ∷ self.new }
        ensures few { length self.old ≤ 32 }
    {
        match self.words.pop() {
            Some(word) => word,
            None => unreachable!(),
        }
    }

    /// The last operand.
    pub fn last(&self) -> u16
        requires { 0 < length self.now }
        ensures { result ≡ top self.now }
    {
        self.words[self.words.len() - 1]
    }

    /// The operand below the last.
    pub fn second(&self) -> u16
        requires { 1 < length self.now }
        ensures { result ≡ top (below self.now) }
    {
        self.words[self.words.len() - 2]
    }

    /// The last so many operands, in the order in which they were pushed.
    pub fn message(&self, count: usize) -> Message
        requires there { count ≤ length self.now }
        requires few { count ≤ 4 }
        ensures { result ≡ reverse (take count self.now) }
    {
        Message::new(&self.words[self.words.len() - count..])
    }
}
