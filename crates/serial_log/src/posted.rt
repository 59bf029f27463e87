/// What became of a posting.
#[derive(Clone, Copy, Debug, PartialEq, Eq)]
pub enum Answer {
    /// It is buffered under this number.
    Accepted(u32),
    /// The buffer was full.
    Full,
    /// The power failed before it was accepted, and came back with this boot.
    Lost(u32),
}

/// A posting that a device raised, and what became of it.
#[derive(Clone, Copy, Debug, PartialEq, Eq)]
pub struct Posted {
    pub device: u8,
    /// Which of the device's postings it is, counted from 1.
    pub index: u32,
    pub event: u16,
    pub argument: u16,
    /// The clock at its raising.
    pub from: u32,
    pub answer: Answer,
}
