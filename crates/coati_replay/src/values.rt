ghost use Rattle.std.specs.Prelude.{◌+◌, ◌≤◌, ◌↔◌, IsTrue, length, slice_index};
ghost use Rattle.coati_replay.specs.Conditions.{AreWordsFrom};

use serial_run::SerialStore;

/// Whether the values are those of the words from this one on.
pub(crate) fn are_words_from(store: &SerialStore, first: u16, values: &[u16]) -> bool
    requires within { first + length values.now ≤ length store.now }
    requires few { length store.now ≤ 256 }
    ensures { IsTrue result ↔ AreWordsFrom (slice_index store.now) first values.now }
{
    let mut word = first;
    for value in values {
        if store.get(word) != *value {
            return false;
        }
        word += 1;
    }
    true
}
