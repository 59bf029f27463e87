/// A log of stores. No word stands in one twice.
#[derive(Clone, Copy, Debug, PartialEq, Eq)]
pub enum Log {
    /// That of the running task.
    Task,
    /// That of the open transaction.
    Tx,
    /// That of the entry in a slot of the ring.
    Entry(u16),
}
