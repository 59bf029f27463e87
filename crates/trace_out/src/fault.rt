use coati_word::OutOfMemory;
use thiserror::Error;

/// Why a text is no printed text. Lines are counted from 1.
#[derive(Clone, Copy, Debug, PartialEq, Eq, Error)]
pub enum PrintFault {
    /// This line is missing, or is the first that has no form that is allowed there.
    #[error("line {0} has no form that is allowed there")]
    BadLine(u32),
    /// Memory was refused.
    #[error("out of memory")]
    OutOfMemory,
}

impl From<OutOfMemory> for PrintFault {
    ghost use Rattle.std.specs.Prelude.{◌≡◌};
    ghost use Rattle.trace_out.specs.declared.fault.PrintFault.TheVariants.{OutOfMemory};

    ghost from_gives = { λ _ fault. fault ≡ OutOfMemory };

    fn from(_: OutOfMemory) -> Self {
        PrintFault::OutOfMemory
    }
}
