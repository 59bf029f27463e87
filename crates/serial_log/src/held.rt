/// An accepted posting, as its event will run on it.
#[derive(Clone, Copy, Debug, PartialEq, Eq)]
pub struct Held {
    /// Its number among the accepted ones, counted from 1.
    pub number: u32,
    pub event: u16,
    pub argument: u16,
}
