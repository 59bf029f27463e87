use crate::unit::Unit;

/// A committed unit.
#[derive(Clone, Copy, Debug, PartialEq, Eq)]
pub struct Record {
    pub unit: Unit,
    /// How many tasks it had; 0 for an event.
    pub tasks: u32,
    /// The number of its posting; 0 where it is no event.
    pub posting: u32,
    /// Where its readings begin among those of all records.
    pub reads_from: u32,
    /// How many readings it has.
    pub reads_len: u32,
}
