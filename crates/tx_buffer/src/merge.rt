ghost use Rattle.std.specs.Prelude.{◌≡◌, ◌<◌, ◌↔◌, IsNone, None};
ghost use Rattle.nv_memory.specs.declared.log.Log.TheVariants as log;
ghost use Rattle.nv_memory.specs.InRange.{InRange};
ghost use Rattle.nv_memory.specs.Logs.{index_in, length_in, task_log, tx_log};
ghost use Rattle.nv_memory.specs.State.{state};
ghost use Rattle.tx_buffer.specs.Merge.{IsMerged, flag_changes, merge_changes, pair_changes, store_changes};
ghost use Rattle.tx_buffer.specs.Next.{IsNext, MakesNext, changes_below};

use crate::table::places;
use nv_memory::{Image, Log, Write, header};

/// The next write of a merge of the task's log and flags into the transaction. None exactly where
/// the transaction has them all.
pub fn merge_write(image: &Image) -> Option<Write>
    requires { InRange (state image.now) }
    ensures next { IsNext image.now (merge_changes (state image.now)) result }
    ensures none { IsNone result ↔ IsMerged (state image.now) }
{
    match pair_write(image) {
        Some(write) => Some(write),
        None => flag_write(image),
    }
}

// The next write of the pairs.
fn pair_write(image: &Image) -> Option<Write>
    requires { InRange (state image.now) }
    ensures { let s = state image.now in
        IsNext image.now (changes_below (pair_changes s) (length_in s task_log)) result }
{
    let layout = image.layout();
    let places = places(image, Log::Tx);
    for i in 0..image.length(Log::Task) {
        let (word, value) = image.pair(Log::Task, i);
        match places[word as usize] {
            None => return Some(pair_added(image, word, value)),
            Some(at) => {
                if image.pair(Log::Tx, at).1 != value {
                    return Some(Write {
                        at: layout.value(Log::Tx, at),
                        word: value,
                    });
                }
            }
        }
    }
    None
}

// The next write of a pair that the transaction log gets: its word, its value, and then the
// length.
fn pair_added(image: &Image, word: u16, value: u16) -> Write
    requires range { InRange (state image.now) }
    requires word { word < image.now.n }
    requires absent { index_in (state image.now) tx_log word ≡ None }
    ensures { MakesNext image.now (store_changes (state image.now) word value None) result }
{
    let layout = image.layout();
    let end = image.length(Log::Tx);
    let number_at = layout.number(Log::Tx, end);
    if image.get(number_at) != word {
        return Write {
            at: number_at,
            word,
        };
    }
    let value_at = layout.value(Log::Tx, end);
    if image.get(value_at) != value {
        return Write {
            at: value_at,
            word: value,
        };
    }
    Write {
        at: header::TX_LENGTH,
        word: end + 1,
    }
}

// The next write of the flags.
fn flag_write(image: &Image) -> Option<Write>
    requires { InRange (state image.now) }
    ensures { let s = state image.now in
        IsNext image.now (changes_below (flag_changes s) s.n) result }
{
    let layout = image.layout();
    for word in 0..layout.n {
        if image.attempt_flag(word) && !image.tx_flag(word) {
            return Some(Write {
                at: layout.tx_flag(word),
                word: 1,
            });
        }
    }
    None
}
