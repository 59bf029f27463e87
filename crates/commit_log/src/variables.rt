ghost use Rattle.nv_memory.specs.InRange.{InRange};
ghost use Rattle.nv_memory.specs.Logs.{HasLog, length_in, seats_of, task_log, tx_log};
ghost use Rattle.nv_memory.specs.State.{state};
ghost use Rattle.tx_buffer.specs.Next.{IsNext, changes_below};
ghost use Rattle.commit_log.specs.Changes.{log_changes, older_changes};

use nv_memory::{Image, Log, Write};
use tx_buffer::places;

/// The next write of a log's pairs into the variables.
pub fn variable_write(image: &Image, log: Log) -> Option<Write>
    requires range { InRange (state image.now) }
    requires log { HasLog image.now.k log }
    ensures { let s = state image.now in
        IsNext image.now (log_changes s (seats_of log)) result }
{
    let layout = image.layout();
    for i in 0..image.length(log) {
        let (word, value) = image.pair(log, i);
        if image.variable(word) != value {
            return Some(Write {
                at: layout.variable(word),
                word: value,
            });
        }
    }
    None
}

/// The next write into the variables of the transaction log's pairs whose words aren't in the task
/// log.
pub fn older_write(image: &Image) -> Option<Write>
    requires { InRange (state image.now) }
    ensures { let s = state image.now in
        IsNext image.now (changes_below (older_changes s) (length_in s tx_log)) result }
{
    let count = image.length(Log::Tx);
    if count == 0 {
        return None;
    }
    let layout = image.layout();
    let newer = places(image, Log::Task);
    for i in 0..count {
        let (word, value) = image.pair(Log::Tx, i);
        if newer[word as usize].is_none() && image.variable(word) != value {
            return Some(Write {
                at: layout.variable(word),
                word: value,
            });
        }
    }
    None
}
