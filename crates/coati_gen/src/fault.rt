use thiserror::Error;

/// Why no input was generated.
#[derive(Clone, Copy, Debug, PartialEq, Eq, Error)]
pub enum GenFault {
    /// More than 200 rounds were asked for.
    #[error("at most 200 rounds are generated")]
    TooBig,
    /// Memory was refused.
    #[error("out of memory")]
    OutOfMemory,
}
