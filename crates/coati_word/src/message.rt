ghost use Rattle.std.specs.Prelude.{◌≡◌, ◌≤◌, ◌<◌, length};

use std::marker::Model;

/// What a top half gives its bottom half: up to four words. A contract sees the list of them.
#[derive(Clone, Copy, Debug, PartialEq, Eq)]
pub struct Message {
    /// How many words it has.
    pub len: u8,
    /// Its words, and 0 behind them.
    pub words: [u16; 4],
}

impl Model for Message {
    ghost use Rattle.std.specs.Prelude.{ℕ, List};

    ghost Value = { List ℕ };

    ghost use Rattle.coati_word.specs.Message.{words_of, IsPadded, padded_message, padded_message_of};

    ghost view = { words_of };

    ghost invariant = { IsPadded };

    ghost inverse = { padded_message };

    ghost inverse_ok = { padded_message_of };
}

impl Message {
    /// The message of these words.
    pub fn new(words: &[u16]) -> Message
        requires { length words.now ≤ 4 }
        ensures { result ≡ words.now }
    {
        let mut padded = [0; 4];
        padded[..words.len()].copy_from_slice(words);
        Message {
            len: words.len() as u8,
            words: padded,
        }
    }

    /// Its words.
    pub fn as_slice(&self) -> &[u16]
        ensures words { result.now ≡ self.now }
        ensures few { length result.now ≤ 4 }
    {
        &self.words[..self.len as usize]
    }
}
