ghost use Rattle.std.specs.Prelude.{◌≡◌, ◌==◌, ◌∷◌, [], ◌<◌, ◌≤◌};
ghost use Rattle.nv_memory.specs.Ring.{entry_at, message_word};
ghost use Rattle.nv_memory.specs.Seats.{Seat};
ghost use Rattle.nv_memory.specs.State.{cells, state};
ghost use Rattle.nv_memory.specs.Words.{attempt_flag, current, doomed, first, head, head_next, mark, mode, next, opened, tail, tx_flag, variable};

use crate::header;
use crate::image::Image;

/// The words by their names.
impl Image {
    // A header word.
    #[tactic(auto, using(crate::proofs::Seats::header_is))]
    fn header(&self, at: u16) -> u16
        requires { at < 12 }
        ensures { result ≡ cells self.now (Seat.Header at) }
    {
        self.get(at)
    }

    /// The marker.
    pub fn mark(&self) -> u16
        ensures { result ≡ mark (state self.now) }
    {
        self.header(header::MARK)
    }

    /// The task to run, or `HALT`.
    pub fn current(&self) -> u16
        ensures { result ≡ current (state self.now) }
    {
        self.header(header::CURRENT)
    }

    /// The place after the commit under way.
    pub fn next(&self) -> u16
        ensures { result ≡ next (state self.now) }
    {
        self.header(header::NEXT)
    }

    /// Whether a transaction is open.
    pub fn is_open(&self) -> bool
        ensures { result ≡ (opened (state self.now) == 1) }
    {
        self.header(header::OPEN) == 1
    }

    /// The position of the oldest entry.
    pub fn head(&self) -> u16
        ensures { result ≡ head (state self.now) }
    {
        self.header(header::HEAD)
    }

    /// The position after the entry under commit.
    pub fn head_next(&self) -> u16
        ensures { result ≡ head_next (state self.now) }
    {
        self.header(header::HEAD_NEXT)
    }

    /// The position after the newest accepted entry.
    pub fn tail(&self) -> u16
        ensures { result ≡ tail (state self.now) }
    {
        self.header(header::TAIL)
    }

    /// Whether the open transaction is aborted.
    pub fn is_doomed(&self) -> bool
        ensures { result ≡ (doomed (state self.now) == 1) }
    {
        self.header(header::DOOM) == 1
    }

    /// The first task of the open transaction.
    pub fn first(&self) -> u16
        ensures { result ≡ first (state self.now) }
    {
        self.header(header::FIRST)
    }

    /// Whether the mode is `buffi`.
    pub fn is_buffi(&self) -> bool
        ensures { result ≡ (mode (state self.now) == 1) }
    {
        self.header(header::MODE) == 1
    }

    /// A variable word.
    #[tactic(auto, using(crate::proofs::Seats::word_is, crate::proofs::Seats::word_inside, crate::proofs::Seats::part_seat))]
    pub fn variable(&self, word: u16) -> u16
        requires { word < self.now.n }
        ensures { result ≡ variable (state self.now) word }
    {
        self.get(self.layout().variable(word))
    }

    /// Whether the attempt's flag of a word is set.
    #[tactic(auto, using(crate::proofs::Seats::word_is, crate::proofs::Seats::word_inside, crate::proofs::Seats::part_seat))]
    pub fn attempt_flag(&self, word: u16) -> bool
        requires { word < self.now.n }
        ensures { result ≡ attempt_flag (state self.now) word }
    {
        self.get(self.layout().attempt_flag(word)) == 1
    }

    /// Whether the transaction's flag of a word is set.
    #[tactic(auto, using(crate::proofs::Seats::word_is, crate::proofs::Seats::word_inside, crate::proofs::Seats::part_seat))]
    pub fn tx_flag(&self, word: u16) -> bool
        requires { word < self.now.n }
        ensures { result ≡ tx_flag (state self.now) word }
    {
        self.get(self.layout().tx_flag(word)) == 1
    }

    /// The event of the entry in a slot.
    #[tactic(auto, using(crate::proofs::Seats::word_is, crate::proofs::Seats::entry_seat))]
    pub fn event(&self, slot: u16) -> u16
        requires { slot ≤ self.now.k }
        ensures { result ≡ (entry_at (state self.now) slot).event }
    {
        self.get(self.layout().event(slot))
    }

    /// The message words of the entry in a slot.
    pub fn message(&self, slot: u16) -> [u16; 4]
        requires { slot ≤ self.now.k }
        ensures { result ≡ (entry_at (state self.now) slot).message }
    {
        [
            self.message_word(slot, 0),
            self.message_word(slot, 1),
            self.message_word(slot, 2),
            self.message_word(slot, 3),
        ]
    }

    #[tactic(auto, using(crate::proofs::Seats::word_is, crate::proofs::Seats::entry_seat))]
    fn message_word(&self, slot: u16, i: u16) -> u16
        requires slot { slot ≤ self.now.k }
        requires word { i < 4 }
        ensures { result ≡ message_word (state self.now) slot i }
    {
        self.get(self.layout().message(slot, i))
    }
}
