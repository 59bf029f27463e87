//! Sums over the words: one for each word that a write is owed for.

ghost use Rattle.std.specs.Prelude.{◌≡◌, ◌≤◌};
ghost use Rattle.nv_memory.specs.InRange.{InRange};
ghost use Rattle.nv_memory.specs.State.{state};
ghost use Rattle.commit_log.specs.Left.{flagged, sum_below, unapplied, unjoined};
ghost use Rattle.device_pace.specs.Effort.{flag_left};

use commit_log::committed;
use nv_memory::Image;

/// The variables that aren't what is committed.
pub fn unapplied_words(image: &Image) -> u32
    requires { InRange (state image.now) }
    ensures count { result ≡ sum_below (unapplied (state image.now)) image.now.n }
    ensures few { result ≤ image.now.n }
{
    let mut count = 0;
    for word in 0..image.layout().n {
        if image.variable(word) != committed(image, word) {
            count += 1;
        }
    }
    count
}

/// The flags of the transaction.
pub fn flagged_words(image: &Image) -> u32
    ensures count { result ≡ sum_below (flagged (state image.now)) image.now.n }
    ensures few { result ≤ image.now.n }
{
    let mut count = 0;
    for word in 0..image.layout().n {
        if image.tx_flag(word) {
            count += 1;
        }
    }
    count
}

/// The flags of the attempt that aren't flags of the transaction.
pub fn unjoined_words(image: &Image) -> u32
    ensures count { result ≡ sum_below (unjoined (state image.now)) image.now.n }
    ensures few { result ≤ image.now.n }
{
    let mut count = 0;
    for word in 0..image.layout().n {
        if image.attempt_flag(word) && !image.tx_flag(word) {
            count += 1;
        }
    }
    count
}

/// The flags that an attempt has left.
pub fn attempt_flags(image: &Image) -> u32
    ensures count { result ≡ sum_below (flag_left (state image.now)) image.now.n }
    ensures few { result ≤ image.now.n }
{
    let mut count = 0;
    for word in 0..image.layout().n {
        if image.attempt_flag(word) {
            count += 1;
        }
    }
    count
}
