ghost use Rattle.std.specs.Prelude.{◌≡◌, ◌+◌, ◌^◌, ◌<◌, ◌≤◌, [], OnOk, length};
ghost use Rattle.serial_log.specs.History.{IsRecordIn, HasRecord, IsRoomier};
ghost use Rattle.serial_log.specs.History.{readings_in, with_mark, with_reading};

use crate::mark::Mark;
use crate::record::Record;
use coati_word::{OutOfMemory, Reading};
use std::alloc::Global;
use std::marker::Model;

/// The observer's record of a run. It is no memory of the device, and outlives cuts of power. A
/// contract sees the marks, the readings of all records in one list, and the room that is left for
/// either.
#[derive(Drop)]
pub struct History {
    marks: Vec<Mark>,
    readings: Vec<Reading>,
}

impl Model for History {
    ghost use Rattle.std.specs.Prelude.{◌-◌};
    ghost use Rattle.std.specs.Vec.{vec_len, vec_capacity};
    ghost use Rattle.serial_log.specs.History.{Past, IsKept};

    ghost Value = { Past };

    ghost view = { λ h. record {
      marks = h.marks.items;
      mark_room = vec_capacity h.marks - vec_len h.marks;
      readings =
          h.readings.items;
      reading_room = vec_capacity h.readings - vec_len h.readings;
    } };

    ghost invariant = { λ h. IsKept h.marks.items h.readings.items };
}

impl History {
    /// An empty history without room. No memory is taken.
    pub fn new(alloc: Global) -> History
        ensures marks { result.marks ≡ [] }
        ensures readings { result.readings ≡ [] }
    {
        History {
            marks: Vec::new(alloc),
            readings: Vec::new(alloc),
        }
    }

    /// Makes room for so many marks and readings more. After a refusal there is at least the room
    /// of before.
    pub fn reserve(&mut self, marks: u32, readings: u32) -> Result<(), OutOfMemory>
        ensures marks { self.new.marks ≡ self.old.marks }
        ensures readings { self.new.readings ≡ self.old.readings }
        ensures mark_room { OnOk result (marks ≤ self.new.mark_room) }
        ensures reading_room { OnOk result (readings ≤ self.new.reading_room) }
        ensures roomier { IsRoomier self.old self.new }
    {
        self.marks.reserve(marks as usize)?;
        Ok(self.readings.reserve(readings as usize)?)
    }

    /// Adds a mark. A commit's readings were recorded before. No memory is taken.
    pub fn push(&mut self, mark: Mark)
        requires room { 0 < self.old.mark_room }
        requires readings { IsRecordIn (length self.old.readings) mark.kind }
        ensures { self.new ≡ with_mark self.old mark }
    {
        self.marks.push_reserved(mark);
    }

    /// Adds a reading of the record to come. No memory is taken.
    pub fn record_reading(&mut self, reading: Reading)
        requires room { 0 < self.old.reading_room }
        requires few { length self.old.readings + 1 < 2 ^ 32 }
        ensures { self.new ≡ with_reading self.old reading }
    {
        self.readings.push_reserved(reading);
    }

    /// How many readings all records have, with those of the record to come.
    pub fn recorded(&self) -> u32
        ensures { result ≡ length self.now.readings }
    {
        self.readings.len() as u32
    }

    /// The marks, in their order.
    pub fn marks(&self) -> &[Mark]
        ensures { result.now ≡ self.now.marks }
    {
        self.marks.as_slice()
    }

    /// What a committed unit read, in its order.
    pub fn readings(&self, committed: &Record) -> &[Reading]
        requires { HasRecord self.now committed.now }
        ensures { result.now ≡ readings_in self.now.readings committed.now }
    {
        let from = committed.reads_from as usize;
        &self.readings[from..from + committed.reads_len as usize]
    }
}
