ghost use Rattle.std.specs.Prelude.{◌≡◌, ◌<◌, ℕ, false};
ghost use Rattle.buffi_sets.specs.View.{word_behind_entries};
ghost use Rattle.event_buffer.specs.Fill.{is_full};
ghost use Rattle.nv_memory.specs.InRange.{InRange};
ghost use Rattle.nv_memory.specs.Logs.{HasLog};
ghost use Rattle.nv_memory.specs.State.{state};
ghost use Rattle.task_buffer.specs.StoreLaws.{Stores};
ghost use Rattle.task_buffer.specs.Stores.{IsBegun};
ghost use Rattle.coati_device.specs.HandlerView.{tail_log};
ghost use Rattle.coati_device.specs.TaskView.{HasStoredIn};

use crate::writes::put;
use buffi_sets::event_view;
use nv_memory::{Image, Log};
use task_buffer::store_write;
use word_cpu::View;

/// The variable words as the bottom half in a handler sees them, in mode `buffi`: the log of its
/// own entry, those of the held entries, then the committed words. It stores into its own log.
#[derive(Drop)]
pub struct HandlerView<'a> {
    pub image: &'a mut Image,
    ghost range: { InRange (state image.now) },
    ghost room: { is_full (state image.now) ≡ false },
}

impl<'a> View for HandlerView<'a> {
    ghost use Rattle.std.specs.Prelude.{◌≡◌};
    ghost use Rattle.coati_device.specs.HandlerView.{handler_view};

    ghost meaning = { record {
      words = λ v. handler_view.words v.image.now;
      begun = λ v word value part. handler_view.begun v.image.now word value part;
      loaded = λ old word new. (new.image.ghost_name ≡ old.image.ghost_name)
          × handler_view.loaded old.image.now word new.image.now;
      stored = λ old word value part new is_last. (new.image.ghost_name ≡ old.image.ghost_name)
          × handler_view.stored old.image.now word value part new.image.now is_last;
    } };

    fn load(&mut self, word: u16) -> u16 {
        event_view(self.image, word)
    }

    fn store(&mut self, word: u16, value: u16, part: u8) -> bool {
        store(self.image, word, value, part)
    }

    ghost nothing_before = { λ view word value. tt };
}

// A part of a store by the bottom half.
fn store(image: &mut Image, word: u16, value: u16, part: u8) -> bool
    requires range { InRange (state image.old) }
    requires room { is_full (state image.old) ≡ false }
    requires word { word < image.old.n }
    requires begun { IsBegun (state image.old) (tail_log (state image.old)) word value part }
    ensures stored { HasStoredIn (tail_log (state image.old)) image.old word value part image.new
        result }
    ensures made { Stores (tail_log (state image.old)) word value part result (state image.old)
        (state image.new) }
    ensures room { is_full (state image.new) ≡ false }
    ensures behind { (other : ℕ) → word_behind_entries (state image.new) other
        ≡ word_behind_entries (state image.old) other }
{
    let (write, is_last) = store_write(image, own_log(image), word, value, part);
    put(image, write);
    is_last
}

// The log of the entry at the tail.
fn own_log(image: &Image) -> Log
    ensures log { result ≡ tail_log (state image.now) }
    ensures has { HasLog image.now.k result }
{
    Log::Entry(image.layout().slot(image.tail()))
}
