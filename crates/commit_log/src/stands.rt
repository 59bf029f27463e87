ghost use Rattle.std.specs.Prelude.{◌≡◌, ◌<◌};
ghost use Rattle.nv_memory.specs.InRange.{InRange};
ghost use Rattle.nv_memory.specs.StandsFor.{applied_value, committed_word, place_of};
ghost use Rattle.nv_memory.specs.State.{state};
ghost use Rattle.commit_log.specs.Changes.{first_task};

use crate::marker::Marker;
use nv_memory::{Image, Log};
use tx_buffer::look;

/// The value of a variable word that the image stands for.
pub fn committed(image: &Image, word: u16) -> u16
    requires range { InRange (state image.now) }
    requires word { word < image.now.n }
    ensures { result ≡ committed_word (state image.now) word }
{
    match applied(image, word) {
        Some(value) => value,
        None => image.variable(word),
    }
}

// What the commit under way is about to write to a word.
fn applied(image: &Image, word: u16) -> Option<u16>
    requires { InRange (state image.now) }
    ensures { result ≡ applied_value (state image.now) word }
{
    match Marker::of(image) {
        Marker::Unit => look(image, word),
        Marker::Event if image.head() != image.head_next() => {
            image.find(Log::Entry(image.layout().slot(image.head())), word)
        }
        _ => None,
    }
}

/// Where the program stands; `HALT` after its end.
pub fn place(image: &Image) -> u16
    requires { InRange (state image.now) }
    ensures { result ≡ place_of (state image.now) }
{
    if image.mark() == 2 {
        image.next()
    } else {
        first_task(image)
    }
}

/// The first task of the unit: where no transaction is open, the task to run.
pub fn first_task(image: &Image) -> u16
    ensures { result ≡ first_task (state image.now) }
{
    if image.is_open() {
        image.first()
    } else {
        image.current()
    }
}
