use crate::end::End;
use crate::line::Line;
use coati_word::{Mode, Reading};
use sqlite_items::Items;

/// What a printed text says of a run.
#[derive(Debug, Drop)]
pub struct Printed {
    pub mode: Mode,
    /// The bound on progress, in machine steps.
    pub bound: u32,
    pub lines: Items<Line>,
    /// The readings of all records, each record's at its place.
    pub readings: Items<Reading>,
    pub end: End,
    /// What each variable word holds at the end.
    pub values: Items<u16>,
    /// How many accepted postings are in no record.
    pub held: u32,
}
