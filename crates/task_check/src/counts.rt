//! The rules of counts.

mod buffer;
mod tasks;
mod values;
mod words;

pub(crate) use buffer::bad_buffer;
pub(crate) use tasks::{task_at, too_many_tasks};
pub(crate) use values::bad_count;
pub(crate) use words::too_many_words;
