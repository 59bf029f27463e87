ghost use Rattle.std.specs.Prelude.{◌≡◌, ◌↔◌, IsTrue};

use coati_word::Reading;
use std::marker::Model;

/// Readings in their order. A contract sees the list of them.
#[derive(Debug, Drop)]
pub struct Readings {
    items: Vec<Reading>,
}

impl Model for Readings {
    ghost use Rattle.std.specs.Prelude.{List};
    ghost use Rattle.coati_word.specs.declared.reading.Reading.{Reading};

    ghost Value = { List Reading };

    ghost view = { λ readings. readings.items.items };
}

impl Readings {
    pub(crate) fn from_vec(items: Vec<Reading>) -> Readings
        ensures { result ≡ items.items }
    {
        Readings { items }
    }

    /// The readings.
    pub fn as_slice(&self) -> &[Reading]
        ensures { result.now ≡ self.now }
    {
        self.items.as_slice()
    }
    /// Whether these are the readings.
    pub fn are(&self, reads: &[Reading]) -> bool
        ensures { IsTrue result ↔ (self.now ≡ reads.now) }
    {
        self.items.as_slice() == reads
    }
}
