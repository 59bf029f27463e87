ghost use Rattle.std.specs.Prelude.{◌≡◌, IfOk};
ghost use Rattle.coati_top.specs.Refused.{status_of, text_of};

use crate::Status;
use crate::source_fault::SourceFault;
use crate::source_refusal::source_refusal;
use crate::trace_refusal::trace_refusal;
use crate::verdict_text::{bad_print, difference};
use coati_word::OutOfMemory;
use std::alloc::Global;
use trace_text::TraceFault;

/// Why an input is not served.
#[derive(Clone, Copy, Debug, PartialEq, Eq)]
pub(crate) enum Refusal {
    /// Its source is no program that is accepted.
    Source(SourceFault),
    /// Its second part is no trace.
    Trace(TraceFault),
    /// Its second part is no printed text, first at this line.
    BadPrint(u32),
    /// Its printed text is not serial and legal, first at this line.
    Differs(u32),
}

impl Refusal {
    /// How a call ends that refuses an input so.
    pub(crate) fn status(self) -> Status
        ensures { result ≡ status_of self }
    {
        match self {
            Refusal::Source(_) => Status::Refused,
            Refusal::Trace(_) | Refusal::BadPrint(_) => Status::BadTrace,
            Refusal::Differs(_) => Status::Differs,
        }
    }

    /// The line that says what is wrong.
    pub(crate) fn text(self, alloc: Global) -> Result<Vec<u8>, OutOfMemory>
        ensures { IfOk result (λ text. text.items ≡ text_of self) }
    {
        match self {
            Refusal::Source(fault) => source_refusal(alloc, fault),
            Refusal::Trace(fault) => trace_refusal(alloc, fault),
            Refusal::BadPrint(number) => bad_print(alloc, number),
            Refusal::Differs(number) => difference(alloc, number),
        }
    }
}

/// Why a command does not serve an input.
#[derive(Clone, Copy)]
pub(crate) enum Unserved {
    Refused(Refusal),
    OutOfMemory,
}

impl From<OutOfMemory> for Unserved {
    ghost use Rattle.std.specs.Prelude.{◌≡◌};
    ghost use Rattle.coati_top.specs.declared.refusal.Unserved.TheVariants.{OutOfMemory};

    ghost from_gives = { λ _ why. why ≡ OutOfMemory };

    fn from(_: OutOfMemory) -> Self {
        Unserved::OutOfMemory
    }
}
