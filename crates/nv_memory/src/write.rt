/// A write of one word.
#[derive(Clone, Copy, Debug, PartialEq, Eq)]
pub struct Write {
    /// The address.
    pub at: u16,
    pub word: u16,
}
