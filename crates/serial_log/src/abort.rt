use crate::unit::Unit;

/// A unit that was given up because an event writes what the unit has read.
#[derive(Clone, Copy, Debug, PartialEq, Eq)]
pub struct AbortOf {
    pub unit: Unit,
    /// How many of its tasks had run.
    pub tasks: u32,
    /// The number of the event's posting.
    pub posting: u32,
    /// The least word on which the two clash.
    pub word: u16,
}
