use coati_word::Reading;
use serial_log::Line;
use sqlite_items::Items;

/// What a line says that shows a mark.
#[derive(Drop)]
pub(crate) struct Shown {
    pub(crate) line: Line,
    /// What a commit has read; nothing where it is none.
    pub(crate) readings: Items<Reading>,
}
