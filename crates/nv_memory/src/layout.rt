ghost use Rattle.std.specs.Prelude.{◌≡◌, ◌+◌, ◌<◌, ◌≤◌};
ghost use Rattle.nv_memory.specs.Logs.{HasLog, seats_of};
ghost use Rattle.nv_memory.specs.Ring.{event_seat, message_seat, position_after, positions, positions_between, slot_of};
ghost use Rattle.nv_memory.specs.Seats.{IsSized, Seat, address, part_size, size};
ghost use Rattle.nv_memory.specs.Words.{attempt_flag_seat, tx_flag_seat, variable_seat};

use crate::header;
use crate::log::Log;

// The parts that have a word for each variable word, in their order.
const VARIABLES: u16 = 0;

const TASK_NUMBERS: u16 = 1;

const TASK_VALUES: u16 = 2;

const TX_NUMBERS: u16 = 3;

const TX_VALUES: u16 = 4;

const ATTEMPT_FLAGS: u16 = 5;

const TX_FLAGS: u16 = 6;

const PARTS: u16 = 7;

// The words of an entry before its log: event, length of the log, message.
const ENTRY_WORDS: u16 = 6;

const ENTRY_EVENT: u16 = 0;

const ENTRY_LENGTH: u16 = 1;

const ENTRY_MESSAGE: u16 = 2;

/// Where the words of an image lie.
#[derive(Clone, Copy, Debug, PartialEq, Eq)]
pub struct Layout {
    /// How many variable words there are.
    pub n: u16,
    /// How many postings can be held. The ring has one slot more.
    pub k: u16,
}

impl Layout {
    /// How many words the image has.
    pub fn size(self) -> u16
        requires { IsSized self.n self.k }
        ensures { result ≡ size self.n self.k }
    {
        header::WORDS + PARTS * self.n + (self.k + 1) * (ENTRY_WORDS + 2 * self.n)
    }

    /// The address of a variable word.
    pub fn variable(self, word: u16) -> u16
        requires sizes { IsSized self.n self.k }
        requires word { word < self.n }
        ensures { result ≡ address self.n (variable_seat word) }
    {
        self.part(VARIABLES, word)
    }

    /// The address of the attempt's flag of a word.
    pub fn attempt_flag(self, word: u16) -> u16
        requires sizes { IsSized self.n self.k }
        requires word { word < self.n }
        ensures { result ≡ address self.n (attempt_flag_seat word) }
    {
        self.part(ATTEMPT_FLAGS, word)
    }

    /// The address of the transaction's flag of a word.
    pub fn tx_flag(self, word: u16) -> u16
        requires sizes { IsSized self.n self.k }
        requires word { word < self.n }
        ensures { result ≡ address self.n (tx_flag_seat word) }
    {
        self.part(TX_FLAGS, word)
    }

    /// The address of a log's length.
    pub fn length(self, log: Log) -> u16
        requires sizes { IsSized self.n self.k }
        requires log { HasLog self.k log }
        ensures { result ≡ address self.n (seats_of log).length }
    {
        match log {
            Log::Task => header::TASK_LENGTH,
            Log::Tx => header::TX_LENGTH,
            Log::Entry(slot) => self.entry(slot) + ENTRY_LENGTH,
        }
    }

    /// The address of the word number of a log's pair.
    pub fn number(self, log: Log, i: u16) -> u16
        requires sizes { IsSized self.n self.k }
        requires log { HasLog self.k log }
        requires pair { i < self.n }
        ensures { result ≡ address self.n ((seats_of log).number i) }
    {
        match log {
            Log::Task => self.part(TASK_NUMBERS, i),
            Log::Tx => self.part(TX_NUMBERS, i),
            Log::Entry(slot) => self.entry(slot) + ENTRY_WORDS + i,
        }
    }

    /// The address of the value of a log's pair.
    pub fn value(self, log: Log, i: u16) -> u16
        requires sizes { IsSized self.n self.k }
        requires log { HasLog self.k log }
        requires pair { i < self.n }
        ensures { result ≡ address self.n ((seats_of log).value i) }
    {
        match log {
            Log::Task => self.part(TASK_VALUES, i),
            Log::Tx => self.part(TX_VALUES, i),
            Log::Entry(slot) => self.entry(slot) + ENTRY_WORDS + self.n + i,
        }
    }

    /// The address of an entry's event.
    pub fn event(self, slot: u16) -> u16
        requires sizes { IsSized self.n self.k }
        requires slot { slot ≤ self.k }
        ensures { result ≡ address self.n (event_seat slot) }
    {
        self.entry(slot) + ENTRY_EVENT
    }

    /// The address of a word of an entry's message.
    pub fn message(self, slot: u16, i: u16) -> u16
        requires sizes { IsSized self.n self.k }
        requires slot { slot ≤ self.k }
        requires word { i < 4 }
        ensures { result ≡ address self.n (message_seat slot i) }
    {
        self.entry(slot) + ENTRY_MESSAGE + i
    }

    /// How many positions the ring has.
    pub fn positions(self) -> u16
        requires { IsSized self.n self.k }
        ensures { result ≡ positions self.k }
    {
        2 * (self.k + 1)
    }

    /// The position after another.
    pub fn position_after(self, position: u16) -> u16
        requires sizes { IsSized self.n self.k }
        requires position { position < positions self.k }
        ensures { result ≡ position_after self.k position }
    {
        (position + 1) % self.positions()
    }

    /// How many positions there are from one up to and without another.
    pub fn positions_between(self, from: u16, to: u16) -> u16
        requires sizes { IsSized self.n self.k }
        requires from { from < positions self.k }
        requires to { to < positions self.k }
        ensures { result ≡ positions_between self.k from to }
    {
        (to + self.positions() - from) % self.positions()
    }

    /// The slot of a position.
    pub fn slot(self, position: u16) -> u16
        requires { IsSized self.n self.k }
        ensures slot { result ≡ slot_of self.k position }
        ensures low { result ≤ self.k }
    {
        position % (self.k + 1)
    }

    // The address of a word of a part.
    fn part(self, part: u16, word: u16) -> u16
        requires sizes { IsSized self.n self.k }
        requires part { part < 7 }
        requires word { word < self.n }
        ensures { result ≡ address self.n (Seat.Part part word) }
    {
        header::WORDS + (part * self.n + word)
    }

    // The address of an entry's first word. Its last one is within the image.
    fn entry(self, slot: u16) -> u16
        requires sizes { IsSized self.n self.k }
        requires slot { slot ≤ self.k }
        ensures { result ≡ address self.n (Seat.Entry slot 0 0) }
    {
        header::WORDS + PARTS * self.n + slot * (ENTRY_WORDS + 2 * self.n)
    }
}
