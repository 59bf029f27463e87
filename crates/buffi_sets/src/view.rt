ghost use Rattle.std.specs.Prelude.{◌≡◌, ◌<◌};
ghost use Rattle.nv_memory.specs.InRange.{InRange};
ghost use Rattle.nv_memory.specs.State.{state};
ghost use Rattle.buffi_sets.specs.View.{handler_word, word_behind_entries, word_below_entries};

use nv_memory::{Image, Log};
use tx_buffer::look;

// The marker of a unit's commit.
const UNIT: u16 = 2;

/// A word as a handler reads it: from its own log in the slot at the tail, from those of the
/// entries, the newest first, back to the head, from the logs of a unit under commit, or else from
/// the variables.
pub fn event_view(image: &Image, word: u16) -> u16
    requires range { InRange (state image.now) }
    requires word { word < image.now.n }
    ensures { result ≡ handler_word (state image.now) word }
{
    let own = image.layout().slot(image.tail());
    match image.find(Log::Entry(own), word) {
        Some(value) => value,
        None => word_behind_entries(image, word),
    }
}

// A word as the entries leave it: the newest that has it decides.
fn word_behind_entries(image: &Image, word: u16) -> u16
    requires range { InRange (state image.now) }
    requires word { word < image.now.n }
    ensures { result ≡ word_behind_entries (state image.now) word }
{
    let layout = image.layout();
    let head = image.head();
    let mut older = layout.positions_between(head, image.tail());
    while older > 0 {
        older -= 1;
        let slot = layout.slot(head + older);
        if let Some(value) = image.find(Log::Entry(slot), word) {
            return value;
        }
    }
    word_below_entries(image, word)
}

// A word below all entries.
fn word_below_entries(image: &Image, word: u16) -> u16
    requires range { InRange (state image.now) }
    requires word { word < image.now.n }
    ensures { result ≡ word_below_entries (state image.now) word }
{
    if image.mark() == UNIT
        && let Some(value) = look(image, word)
    {
        return value;
    }
    image.variable(word)
}
