ghost use Rattle.std.specs.Prelude.{◌≡◌, ◌<◌};
ghost use Rattle.nv_memory.specs.InRange.{InRange};
ghost use Rattle.nv_memory.specs.Logs.{HasLog};
ghost use Rattle.nv_memory.specs.State.{state};
ghost use Rattle.task_buffer.specs.StoreLaws.{Stores};
ghost use Rattle.task_buffer.specs.Stores.{IsBegun};
ghost use Rattle.coati_device.specs.BottomView.{bottom_word, head_log};
ghost use Rattle.coati_device.specs.TaskView.{HasStoredIn};

use crate::writes::put;
use nv_memory::{Image, Log};
use task_buffer::store_write;
use word_cpu::View;

/// The variable words as the bottom half of the oldest held posting sees them: the log of its
/// entry, then the variables. It stores into that log.
#[derive(Drop)]
pub struct BottomView<'a> {
    pub image: &'a mut Image,
    ghost range: { InRange (state image.now) },
}

impl<'a> View for BottomView<'a> {
    ghost use Rattle.std.specs.Prelude.{◌≡◌};
    ghost use Rattle.coati_device.specs.BottomView.{bottom_view};

    ghost meaning = { record {
      words = λ v. bottom_view.words v.image.now;
      begun = λ v word value part. bottom_view.begun v.image.now word value part;
      loaded = λ old word new. (new.image.ghost_name ≡ old.image.ghost_name)
          × bottom_view.loaded old.image.now word new.image.now;
      stored = λ old word value part new is_last. (new.image.ghost_name ≡ old.image.ghost_name)
          × bottom_view.stored old.image.now word value part new.image.now is_last;
    } };

    fn load(&mut self, word: u16) -> u16 {
        load(self.image, word)
    }

    fn store(&mut self, word: u16, value: u16, part: u8) -> bool {
        store(self.image, word, value, part)
    }

    ghost nothing_before = { λ view word value. tt };
}

// A word as the bottom half sees it.
fn load(image: &Image, word: u16) -> u16
    requires range { InRange (state image.now) }
    requires word { word < image.now.n }
    ensures { result ≡ bottom_word (state image.now) word }
{
    match image.find(own_log(image), word) {
        Some(value) => value,
        None => image.variable(word),
    }
}

// A part of a store by the bottom half.
fn store(image: &mut Image, word: u16, value: u16, part: u8) -> bool
    requires range { InRange (state image.old) }
    requires word { word < image.old.n }
    requires begun { IsBegun (state image.old) (head_log (state image.old)) word value part }
    ensures stored { HasStoredIn (head_log (state image.old)) image.old word value part image.new
        result }
    ensures made { Stores (head_log (state image.old)) word value part result (state image.old)
        (state image.new) }
{
    let (write, is_last) = store_write(image, own_log(image), word, value, part);
    put(image, write);
    is_last
}

// The log of the entry at the head.
#[tactic(auto, using(crate::proofs::BottomViewing::has_head_log))]
fn own_log(image: &Image) -> Log
    ensures log { result ≡ head_log (state image.now) }
    ensures has { HasLog image.now.k result }
{
    Log::Entry(image.layout().slot(image.head()))
}
