/// What one evaluation of a variable word read.
#[derive(Clone, Copy, Debug, PartialEq, Eq)]
pub struct Reading {
    /// The number of the variable word.
    pub word: u16,
    /// What stood there.
    pub value: u16,
}
