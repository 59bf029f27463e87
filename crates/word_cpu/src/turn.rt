use coati_word::{Ending, Reading};

/// What a machine step did.
#[derive(Clone, Copy, Debug, PartialEq, Eq)]
pub enum Turn {
    /// The machine went on, and this is the variable word that it read, if it read one.
    Went(Option<Reading>),
    /// A part of a store was made that wasn't the last.
    Storing,
    /// The body ended.
    Ended(Ending),
}
