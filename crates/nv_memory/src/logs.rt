ghost use Rattle.std.specs.Prelude.{◌≡◌, ◌<◌, ◌≤◌, None, Some, MatchOption};
ghost use Rattle.nv_memory.specs.InRange.{InRange};
ghost use Rattle.nv_memory.specs.Logs.{HasLog, log_index, log_length, log_value, number_in, pair_value_in, seats_of};
ghost use Rattle.nv_memory.specs.State.{state};

use crate::image::Image;
use crate::log::Log;

/// The logs.
impl Image {
    /// How many pairs a log has.
    pub fn length(&self, log: Log) -> u16
        requires { HasLog self.now.k log }
        ensures { result ≡ log_length (state self.now) log }
    {
        self.get(self.layout().length(log))
    }

    /// The word number and the value of a log's pair.
    pub fn pair(&self, log: Log, i: u16) -> (u16, u16)
        requires range { InRange (state self.now) }
        requires log { HasLog self.now.k log }
        requires pair { i < log_length (state self.now) log }
        ensures number { result.0 ≡ number_in (state self.now) (seats_of log) i }
        ensures value { result.1 ≡ pair_value_in (state self.now) (seats_of log) i }
        ensures below { result.0 < self.now.n }
        ensures found { log_value (state self.now) log result.0 ≡ Some result.1 }
    {
        let _layout = self.layout();
        (self.number(log, i), self.value(log, i))
    }

    /// Which pair of a log has a word.
    pub fn index(&self, log: Log, word: u16) -> Option<u16>
        requires range { InRange (state self.now) }
        requires log { HasLog self.now.k log }
        ensures index { result ≡ log_index (state self.now) log word }
        ensures low { MatchOption result Unit (λ i. i < log_length (state self.now) log) }
    {
        let mut i = self.length(log);
        while i > 0 {
            i -= 1;
            if self.number(log, i) == word {
                return Some(i);
            }
        }
        None
    }

    #[tactic(auto, using(crate::proofs::Looks::look_some, crate::proofs::Looks::look_none))]
    /// The value of a word in a log; none exactly where no pair has the word.
    pub fn find(&self, log: Log, word: u16) -> Option<u16>
        requires range { InRange (state self.now) }
        requires log { HasLog self.now.k log }
        ensures { result ≡ log_value (state self.now) log word }
    {
        let i = self.index(log, word)?;
        Some(self.value(log, i))
    }

    fn number(&self, log: Log, i: u16) -> u16
        requires log { HasLog self.now.k log }
        requires pair { i < self.now.n }
        ensures { result ≡ number_in (state self.now) (seats_of log) i }
    {
        self.get(self.layout().number(log, i))
    }

    fn value(&self, log: Log, i: u16) -> u16
        requires log { HasLog self.now.k log }
        requires pair { i < self.now.n }
        ensures { result ≡ pair_value_in (state self.now) (seats_of log) i }
    {
        self.get(self.layout().value(log, i))
    }
}
