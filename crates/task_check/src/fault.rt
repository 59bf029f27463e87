use crate::Rule;
use thiserror::Error;

/// Why a program isn't accepted.
#[derive(Clone, Copy, Debug, PartialEq, Eq, Error)]
pub enum CheckFault {
    /// At this place of the source the program breaks a rule.
    #[error("at {at} the program breaks the rule {rule:?}")]
    Rule { rule: Rule, at: u32 },
    /// Memory was refused.
    #[error("out of memory")]
    OutOfMemory,
}
