ghost use Rattle.std.specs.Prelude.{◌≡◌, ◌<◌};
ghost use Rattle.nv_memory.specs.declared.log.Log.TheVariants as log;
ghost use Rattle.nv_memory.specs.InRange.{InRange};
ghost use Rattle.nv_memory.specs.State.{state};
ghost use Rattle.task_buffer.specs.StoreLaws.{Stores};
ghost use Rattle.task_buffer.specs.Stores.{IsBegun};
ghost use Rattle.coati_device.specs.TaskView.{HasStored, IsAfter, load_change, task_word, task_words};

use crate::writes::put;
use buffi_sets::flag_write;
use nv_memory::{Image, Log};
use task_buffer::store_write;
use tx_buffer::look;
use word_cpu::View;

/// The variable words as a task sees them: its log, then that of the open transaction, then the
/// variables. It stores into its log, and in mode `buffi` it flags what it reads from the
/// variables.
#[derive(Drop)]
pub struct TaskView<'a> {
    pub image: &'a mut Image,
    ghost range: { InRange (state image.now) },
}

impl<'a> View for TaskView<'a> {
    ghost use Rattle.std.specs.Prelude.{◌≡◌};
    ghost use Rattle.coati_device.specs.TaskView.{task_view};

    ghost meaning = { record {
      words = λ v. task_view.words v.image.now;
      begun = λ v word value part. task_view.begun v.image.now word value part;
      loaded = λ old word new. (new.image.ghost_name ≡ old.image.ghost_name)
          × task_view.loaded old.image.now word new.image.now;
      stored = λ old word value part new is_last. (new.image.ghost_name ≡ old.image.ghost_name)
          × task_view.stored old.image.now word value part new.image.now is_last;
    } };

    fn load(&mut self, word: u16) -> u16 {
        load(self.image, word)
    }

    fn store(&mut self, word: u16, value: u16, part: u8) -> bool {
        store(self.image, word, value, part)
    }

    ghost nothing_before = { λ view word value. tt };
}

// A word as the task sees it.
fn load(image: &mut Image, word: u16) -> u16
    requires range { InRange (state image.old) }
    requires word { word < image.old.n }
    ensures value { result ≡ task_word (state image.old) word }
    ensures loaded { IsAfter image.old (load_change (state image.old) word) image.new }
    ensures kept { task_words image.new ≡ task_words image.old }
    ensures range { InRange (state image.new) }
{
    if let Some(value) = look(image, word) {
        return value;
    }
    let value = image.variable(word);
    set_flag(image, word);
    value
}

// In mode `buffi` a read from the variables is flagged.
fn set_flag(image: &mut Image, word: u16)
    requires range { InRange (state image.old) }
    requires word { word < image.old.n }
    ensures loaded { IsAfter image.old (load_change (state image.old) word) image.new }
    ensures kept { task_words image.new ≡ task_words image.old }
    ensures range { InRange (state image.new) }
{
    if image.is_buffi() {
        if let Some(write) = flag_write(image, word) {
            put(image, write);
        }
    }
}

// A part of a store by the task.
fn store(image: &mut Image, word: u16, value: u16, part: u8) -> bool
    requires range { InRange (state image.old) }
    requires word { word < image.old.n }
    requires begun { IsBegun (state image.old) log.Task word value part }
    ensures stored { HasStored image.old word value part image.new result }
    ensures made { Stores log.Task word value part result (state image.old) (state image.new) }
{
    let (write, is_last) = store_write(image, Log::Task, word, value, part);
    put(image, write);
    is_last
}
