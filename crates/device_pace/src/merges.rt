ghost use Rattle.std.specs.Prelude.{◌≡◌, ◌*◌, ◌<◌, ◌≤◌, None};
ghost use Rattle.nv_memory.specs.InRange.{InRange};
ghost use Rattle.nv_memory.specs.Logs.{index_in, length_in, number_in, pair_value_in};
ghost use Rattle.nv_memory.specs.Logs.{task_log, tx_log};
ghost use Rattle.nv_memory.specs.State.{state};
ghost use Rattle.nv_memory.specs.Words.{mark};
ghost use Rattle.commit_log.specs.Left.{begun as begun_of, begun_pair as begun_pair_of};
ghost use Rattle.commit_log.specs.Left.{into_tx_left, lacking as lacking_of, sum_below, unmerged};

use crate::counts::unjoined_words;
use crate::headers::undone;
use commit_log::place;
use nv_memory::{Image, Log, header};

/// The writes that the commit of a task into its transaction has left: its pairs, without what
/// stands of the one under way, its flags, the transaction's first task, that it is open, the
/// place, the task's log.
pub fn into_tx_writes(image: &Image) -> u32
    requires range { InRange (state image.now) }
    requires mark { mark (state image.now) ≡ 1 }
    ensures { result ≡ into_tx_left (state image.now) }
{
    unmerged_pairs(image).saturating_sub(begun(image))
        + unjoined_words(image)
        + undone(image, header::FIRST, place(image))
        + undone(image, header::OPEN, 1)
        + undone(image, header::CURRENT, image.next())
        + undone(image, header::TASK_LENGTH, 0)
        + 1
}

// Those of the task log's pairs.
fn unmerged_pairs(image: &Image) -> u32
    requires { InRange (state image.now) }
    ensures count { let s = state image.now in
        result ≡ sum_below (unmerged s) (length_in s task_log) }
    ensures few { result ≤ 3 * image.now.n }
{
    let mut count = 0;
    for i in 0..image.length(Log::Task) {
        let (word, value) = image.pair(Log::Task, i);
        count += lacking(image.find(Log::Tx, word), value);
    }
    count
}

// Those of a pair, by what the transaction log has for its word.
fn lacking(found: Option<u16>, value: u16) -> u32
    ensures count { result ≡ lacking_of value found }
    ensures low { result ≤ 3 }
{
    match found {
        None => 3,
        Some(other) if other == value => 0,
        Some(_) => 1,
    }
}

// What stands already of the first pair that the transaction log lacks.
#[tactic(auto, using(crate::proofs::Counting::begun_behind, crate::proofs::Counting::begun_here))]
fn begun(image: &Image) -> u32
    requires { InRange (state image.now) }
    ensures { result ≡ begun_of (state image.now) }
{
    for i in 0..image.length(Log::Task) {
        let (word, _) = image.pair(Log::Task, i);
        if image.index(Log::Tx, word).is_none() {
            return begun_pair(image, i);
        }
    }
    0
}

// What stands of a pair behind the transaction log: nothing, its word, or its value too.
#[tactic(auto, using(tx_buffer::proofs::Adds::has_room))]
fn begun_pair(image: &Image, i: u16) -> u32
    requires range { InRange (state image.now) }
    requires pair { i < length_in (state image.now) task_log }
    requires absent { let s = state image.now in
        index_in s tx_log (number_in s task_log i) ≡ None }
    ensures { result ≡ begun_pair_of (state image.now) i }
{
    let (word, value) = image.pair(Log::Task, i);
    if number_behind(image) != word {
        0
    } else if value_behind(image) != value {
        1
    } else {
        2
    }
}

// The word number behind the transaction log.
#[tactic(auto, using(nv_memory::proofs::Seats::word_is, nv_memory::proofs::Seats::part_seat))]
fn number_behind(image: &Image) -> u16
    requires { length_in (state image.now) tx_log < image.now.n }
    ensures { let s = state image.now in result ≡ number_in s tx_log (length_in s tx_log) }
{
    let end = image.length(Log::Tx);
    image.get(image.layout().number(Log::Tx, end))
}

// The value behind it.
#[tactic(auto, using(nv_memory::proofs::Seats::word_is, nv_memory::proofs::Seats::part_seat))]
fn value_behind(image: &Image) -> u16
    requires { length_in (state image.now) tx_log < image.now.n }
    ensures { let s = state image.now in result ≡ pair_value_in s tx_log (length_in s tx_log) }
{
    let end = image.length(Log::Tx);
    image.get(image.layout().value(Log::Tx, end))
}
