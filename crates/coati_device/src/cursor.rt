/// Where a device is in the script.
#[derive(Clone, Copy, Debug, PartialEq, Eq)]
pub struct Cursor {
    /// The place of its next posting; the script's end where none is left.
    pub at: u32,
    /// How many of its postings were raised.
    pub done: u32,
    /// How many are left.
    pub left: u32,
}
