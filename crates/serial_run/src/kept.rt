use coati_word::Reading;

/// What is kept of the accesses of a run.
#[derive(Drop)]
pub(crate) enum Kept {
    /// Each reading.
    Readings(Vec<Reading>),
    /// A mark for each word.
    Touches {
        /// It was read when nothing had written it before.
        shared: Vec<bool>,
        written: Vec<bool>,
    },
}
