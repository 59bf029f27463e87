ghost use Rattle.std.specs.Prelude.{◌≡◌, ◌^◌, ◌<◌, ◌≤◌, [], OnOk};
ghost use Rattle.coati_device.specs.Waits.{begun, first_read, having_read, waiting_count, with_made, without_first};

use coati_word::{OutOfMemory, Reading};
use std::alloc::Global;
use std::marker::Model;

// Where the readings of an event are in the list of all.
#[derive(Clone, Copy, Debug)]
struct Span {
    from: usize,
    len: usize,
}

/// What the bottom halves of the held postings have read, where they run in handlers, and what
/// that of the handler under way has, with room for more. What is committed or was broken off
/// keeps its places, so that no step moves what is behind it.
#[derive(Drop)]
pub struct Waiting {
    readings: Vec<Reading>,
    // Where what the handler under way has read begins.
    made: usize,
    spans: Vec<Span>,
    // How many events are held no more.
    gone: usize,
}

impl Model for Waiting {
    ghost use Rattle.std.specs.Prelude.{◌-◌, ◌≤◌, All, drop, length, map};
    ghost use Rattle.std.specs.Vec.{vec_len, vec_capacity};
    ghost use Rattle.coati_device.specs.Waits.{IsWithin, Waits, read_at};

    ghost Value = { Waits };

    ghost view = { λ w. record {
      events = map (read_at w.readings.items) (drop w.gone w.spans.items);
      made = drop w.made w.readings.items;
      room = vec_capacity w.readings - vec_len w.readings;
      places = vec_capacity w.spans - vec_len w.spans;
    } };

    ghost invariant = { λ w. All (IsWithin (length w.readings.items)) w.spans.items
        × (w.made ≤ length w.readings.items) × (w.gone ≤ length w.spans.items) };
}

impl Waiting {
    /// None, without room. No memory is taken.
    pub fn new(alloc: Global) -> Waiting
        ensures events { result.events ≡ [] }
        ensures made { result.made ≡ [] }
    {
        Waiting {
            readings: Vec::new(alloc),
            made: 0,
            spans: Vec::new(alloc),
            gone: 0,
        }
    }

    /// Makes room for so many readings and events more. After a refusal there is at least the room
    /// of before.
    pub fn reserve(&mut self, more: u32) -> Result<(), OutOfMemory>
        ensures events { self.new.events ≡ self.old.events }
        ensures made { self.new.made ≡ self.old.made }
        ensures room { OnOk result (more ≤ self.new.room) }
        ensures places { OnOk result (more ≤ self.new.places) }
        ensures roomier { self.old.room ≤ self.new.room }
        ensures as_many { self.old.places ≤ self.new.places }
    {
        self.readings.reserve(more as usize)?;
        Ok(self.spans.reserve(more as usize)?)
    }

    /// The bottom half of a handler begins: it has read nothing yet.
    pub fn begin(&mut self)
        ensures { self.new ≡ begun self.old }
    {
        self.made = self.readings.len();
    }

    /// Adds a reading of the handler under way. No memory is taken.
    pub fn push(&mut self, reading: Reading)
        requires { 0 < self.old.room }
        ensures { self.new ≡ having_read self.old reading }
    {
        self.readings.push_reserved(reading);
    }

    /// The event of the handler under way is held. No memory is taken.
    pub fn hold(&mut self)
        requires { 0 < self.old.places }
        ensures { self.new ≡ with_made self.old }
    {
        self.spans.push_reserved(Span {
            from: self.made,
            len: self.readings.len() - self.made,
        });
        self.made = self.readings.len();
    }

    /// What the oldest held event has read; nothing where none is held.
    pub fn first(&self) -> &[Reading]
        ensures { result.now ≡ first_read self.now.events }
    {
        match self.spans.get(self.gone) {
            Some(span) => &self.readings[span.from..span.from + span.len],
            None => &[],
        }
    }

    /// How many readings these are.
    pub fn count(&self) -> u32
        requires { waiting_count self.now < 2 ^ 32 }
        ensures { result ≡ waiting_count self.now }
    {
        let mut count = (self.readings.len() - self.made) as u32;
        for span in &self.spans[self.gone..] {
            count += span.len as u32;
        }
        count
    }

    /// The oldest held event is held no more.
    pub fn release(&mut self)
        ensures { self.new ≡ without_first self.old }
    {
        if self.gone < self.spans.len() {
            self.gone += 1;
        }
    }
}
