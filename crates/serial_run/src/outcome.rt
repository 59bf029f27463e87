use crate::{Readings, SerialStore};
use coati_word::Ending;

/// What a run told: what it read, in its order, and how it ended.
#[derive(Debug, Drop)]
pub struct Outcome {
    pub readings: Readings,
    pub ending: Ending,
}

/// A run of so many tasks of a transaction.
#[derive(Debug, Drop)]
pub enum TxRun {
    /// The transaction is whole after them.
    Whole(SerialStore, Outcome),
    /// It isn't: it goes on, or it was whole before.
    Other,
}
