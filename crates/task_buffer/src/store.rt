ghost use Rattle.std.specs.Prelude.{◌≡◌, ◌<◌, MatchOption};
ghost use Rattle.nv_memory.specs.InRange.{InRange};
ghost use Rattle.nv_memory.specs.Logs.{HasLog, log_index, log_length, seats_of};
ghost use Rattle.nv_memory.specs.State.{Writes, set_to, state};
ghost use Rattle.task_buffer.specs.Stores.{IsBegun, store_change, store_ends};

use nv_memory::{Image, Log, Write};

/// The write of a part, counted from 0, of the store of a value in a word, and whether it ends the
/// store. A word that the log has takes its value at once; else the word number, the value and the
/// longer log are written, in this order.
pub fn store_write(img: &Image, log: Log, word: u16, value: u16, part: u8) -> (Write, bool)
    requires range { InRange (state img.now) }
    requires log { HasLog img.now.k log }
    requires word { word < img.now.n }
    requires begun { IsBegun (state img.now) log word value part }
    ensures write { Writes img.now (store_change (state img.now) log word value part) result.0 }
    ensures ends { result.1 ≡ store_ends (state img.now) log word part }
{
    let layout = img.layout();
    if let Some(i) = place(img, log, word, value, part) {
        let at = layout.value(log, i);
        return (Write { at, word: value }, true);
    }
    let length = img.length(log);
    match part {
        0 => {
            let at = layout.number(log, length);
            (Write { at, word }, false)
        }
        1 => {
            let at = layout.value(log, length);
            (Write { at, word: value }, false)
        }
        _ => {
            let at = layout.length(log);
            let word = length + 1;
            (Write { at, word }, true)
        }
    }
}

// Which pair of the log has the word. A store that goes on has found none, so only its first part
// walks the log.
#[tactic(auto, using(crate::proofs::Parts::none_once_begun))]
fn place(img: &Image, log: Log, word: u16, value: u16, part: u8) -> Option<u16>
    requires range { InRange (state img.now) }
    requires log { HasLog img.now.k log }
    requires begun { IsBegun (state img.now) log word value part }
    ensures index { result ≡ log_index (state img.now) log word }
    ensures low { MatchOption result Unit (λ i. i < log_length (state img.now) log) }
{
    if part > 0 {
        return None;
    }
    img.index(log, word)
}

/// The write that empties a log; none exactly where it has no pair.
pub fn reset_write(img: &Image, log: Log) -> Option<Write>
    requires { HasLog img.now.k log }
    ensures { MatchOption result (log_length (state img.now) log ≡ 0)
        (λ write. (0 < log_length (state img.now) log)
        × Writes img.now (set_to (seats_of log).length 0) write) }
{
    if img.length(log) == 0 {
        return None;
    }
    let at = img.layout().length(log);
    Some(Write { at, word: 0 })
}
