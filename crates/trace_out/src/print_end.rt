use coati_word::OutOfMemory;
use thiserror::Error;

/// Why the text of a run was not written whole.
#[derive(Clone, Copy, Debug, PartialEq, Eq, Error)]
pub enum PrintEnd {
    /// The sink failed before it had taken all of it.
    #[error("the sink failed")]
    Fault,
    /// Memory was refused, before anything was written.
    #[error("out of memory")]
    OutOfMemory,
}

impl From<OutOfMemory> for PrintEnd {
    ghost use Rattle.std.specs.Prelude.{◌≡◌};
    ghost use Rattle.trace_out.specs.declared.print_end.PrintEnd.TheVariants.{OutOfMemory};

    ghost from_gives = { λ _ end. end ≡ OutOfMemory };

    fn from(_: OutOfMemory) -> Self {
        PrintEnd::OutOfMemory
    }
}
