use coati_word::OutOfMemory;
use std::alloc::AllocError;
use thiserror::Error;

/// Why tokens are no program. A token's number counts the tokens before it.
#[derive(Clone, Copy, Debug, PartialEq, Eq, Error)]
pub enum ParseFault {
    /// With this token no program goes on, or the tokens end before it.
    #[error("no program goes on with token {0}")]
    Syntax(u32),
    /// This token opens the 65th bracket, or is the 17th binary operator of an expression.
    #[error("token {0} stands too deep")]
    TooDeep(u32),
    /// Memory was refused.
    #[error("out of memory")]
    OutOfMemory,
}

impl From<AllocError> for ParseFault {
    ghost use Rattle.std.specs.Prelude.{◌≡◌};
    ghost use Rattle.task_parse.specs.declared.fault.ParseFault.TheVariants.{OutOfMemory};

    ghost from_gives = { λ _ fault. fault ≡ OutOfMemory };

    fn from(_: AllocError) -> Self {
        ParseFault::OutOfMemory
    }
}

impl From<OutOfMemory> for ParseFault {
    ghost use Rattle.std.specs.Prelude.{◌≡◌};
    ghost use Rattle.task_parse.specs.declared.fault.ParseFault.TheVariants.{OutOfMemory};

    ghost from_gives = { λ _ fault. fault ≡ OutOfMemory };

    fn from(_: OutOfMemory) -> Self {
        ParseFault::OutOfMemory
    }
}
