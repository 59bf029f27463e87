//! What follows from the definitions: each function's contract is a law, and its body does
//! nothing.

ghost use Rattle.tx_buffer.specs.Keeps.{MergesEndMerged, MergesKeepMerged};

/// Each write of a merge leaves the unit's values and flags as they are, and keeps the ranges.
pub fn merges_keep_merged()
    ensures { MergesKeepMerged }
{}

#[tactic(auto, using(crate::proofs::Ends::merges_end))]
/// Where a merge has no write left, the transaction has all that both logs and all flags said.
pub fn merges_end_merged()
    ensures { MergesEndMerged }
{}
