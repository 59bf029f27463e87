ghost use Rattle.std.specs.Prelude.{◌≡◌, ◌∷◌, ◌<◌, ◌≤◌, [], OnOk, length};
ghost use Rattle.coati_device.specs.Kept.{adding, emptied};

use coati_word::{OutOfMemory, Reading};
use std::alloc::Global;
use std::marker::Model;

/// Readings, with room for more. A contract sees them, and the room as a number.
#[derive(Drop)]
pub struct Readings {
    items: Vec<Reading>,
}

impl Model for Readings {
    ghost use Rattle.std.specs.Prelude.{◌-◌};
    ghost use Rattle.std.specs.Vec.{vec_len, vec_capacity};
    ghost use Rattle.coati_device.specs.Kept.{Kept};

    ghost Value = { Kept };

    ghost view = { λ r. record {
      items = r.items.items;
      room = vec_capacity r.items - vec_len r.items;
    } };
}

impl Readings {
    /// None, without room. No memory is taken.
    pub fn new(alloc: Global) -> Readings
        ensures { result.items ≡ [] }
    {
        Readings {
            items: Vec::new(alloc),
        }
    }

    /// Makes room for so many more. After a refusal there is at least the room of before.
    pub fn reserve(&mut self, more: u32) -> Result<(), OutOfMemory>
        ensures items { self.new.items ≡ self.old.items }
        ensures room { OnOk result (more ≤ self.new.room) }
        ensures roomier { self.old.room ≤ self.new.room }
    {
        Ok(self.items.reserve(more as usize)?)
    }

    /// Adds a reading. No memory is taken.
    pub fn push(&mut self, reading: Reading)
        requires { 0 < self.old.room }
        ensures { self.new ≡ adding self.old (reading ∷ []) }
    {
        self.items.push_reserved(reading);
    }

    /// Adds more readings. No memory is taken.
    pub fn push_all(&mut self, more: &[Reading])
        requires { length more.now ≤ self.old.room }
        ensures { self.new ≡ adding self.old more.now }
    {
        for reading in more {
            self.items.push_reserved(*reading);
        }
    }

    /// Forgets all readings. No memory is given back.
    pub fn clear(&mut self)
        ensures { self.new ≡ emptied self.old }
    {
        self.items.clear();
    }

    /// The readings.
    pub fn as_slice(&self) -> &[Reading]
        ensures { result.now ≡ self.now.items }
    {
        self.items.as_slice()
    }
}
