use thiserror::Error;

/// Why a source has no tokens.
#[derive(Clone, Copy, Debug, PartialEq, Eq, Error)]
pub enum LexFault {
    /// At this place of the source stands a byte that starts nothing.
    #[error("no token starts with the byte at {0}")]
    BadByte(u32),
    /// At this place of the source stands a number that is too great or runs into a letter.
    #[error("no number stands at {0}")]
    BadNumber(u32),
    /// Memory was refused.
    #[error("out of memory")]
    OutOfMemory,
}
