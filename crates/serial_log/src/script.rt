ghost use Rattle.std.specs.Prelude.{◌≡◌, ◌++◌, ◌∷◌, [], OnErr, OnOk};

use coati_word::OutOfMemory;
use std::alloc::Global;
use std::marker::Model;

/// A posting that a device is to make.
#[derive(Clone, Copy, Debug, PartialEq, Eq)]
pub struct Posting {
    /// The machine step at which it is due.
    pub time: u32,
    /// The device, below 8.
    pub device: u8,
    /// The event's number.
    pub event: u16,
    /// What the event's top half runs on.
    pub argument: u16,
}

/// Power periods in their order, each in machine steps. A contract sees the list of them.
#[derive(Debug, Drop)]
pub struct Periods {
    items: Vec<u32>,
}

impl Model for Periods {
    ghost use Rattle.std.specs.Prelude.{ℕ, List};

    ghost Value = { List ℕ };

    ghost view = { λ periods. periods.items.items };
}

impl Periods {
    /// No period. No memory is taken.
    pub fn new(alloc: Global) -> Periods
        ensures { result ≡ [] }
    {
        Periods {
            items: Vec::new(alloc),
        }
    }

    /// Adds a period. After a refusal the periods are as before.
    pub fn push(&mut self, period: u32) -> Result<(), OutOfMemory>
        ensures added { OnOk result (self.new ≡ self.old ++ period ∷ []) }
        ensures stays { OnErr result (self.new ≡ self.old) }
    {
        Ok(self.items.push(period)?)
    }

    /// The periods.
    pub fn as_slice(&self) -> &[u32]
        ensures { result.now ≡ self.now }
    {
        self.items.as_slice()
    }
}

/// Postings in the order of their script. A contract sees the list of them.
#[derive(Debug, Drop)]
pub struct Postings {
    items: Vec<Posting>,
}

impl Model for Postings {
    ghost use Rattle.std.specs.Prelude.{List};
    ghost use Rattle.serial_log.specs.declared.script.Posting.{Posting};

    ghost Value = { List Posting };

    ghost view = { λ postings. postings.items.items };
}

impl Postings {
    /// No posting. No memory is taken.
    pub fn new(alloc: Global) -> Postings
        ensures { result ≡ [] }
    {
        Postings {
            items: Vec::new(alloc),
        }
    }

    /// Adds a posting. After a refusal the postings are as before.
    pub fn push(&mut self, posting: Posting) -> Result<(), OutOfMemory>
        ensures added { OnOk result (self.new ≡ self.old ++ posting ∷ []) }
        ensures stays { OnErr result (self.new ≡ self.old) }
    {
        Ok(self.items.push(posting)?)
    }

    /// The postings.
    pub fn as_slice(&self) -> &[Posting]
        ensures { result.now ≡ self.now }
    {
        self.items.as_slice()
    }
}

/// What a run is given.
#[derive(Debug, Drop)]
pub struct Script {
    /// The executor's steps at most.
    pub limit: u32,
    /// How long the power lasts, again and again; behind the last period it stays.
    pub power: Periods,
    /// What devices post.
    pub postings: Postings,
}
