use thiserror::Error;

/// Why a text is no trace. Lines are counted from 1.
#[derive(Clone, Copy, Debug, PartialEq, Eq, Error)]
pub enum TraceFault {
    /// This line has none of the forms, or a number that is out of its range.
    #[error("line {0} has none of the forms")]
    BadLine(u32),
    /// This line names an event that the program does not have.
    #[error("line {0} names an unknown event")]
    Unknown(u32),
    /// This line is a second limit, a power period behind a posting, or a posting before the time
    /// of the last one.
    #[error("line {0} is out of order")]
    Order(u32),
    /// With this line the trace is above a limit.
    #[error("line {0} is too much")]
    TooMany(u32),
    /// No line says anything, or the first that does has another first word than `limit`.
    #[error("no limit comes first")]
    NoLimit,
    /// Memory was refused.
    #[error("out of memory")]
    OutOfMemory,
}
