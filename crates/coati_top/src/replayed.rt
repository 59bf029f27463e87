//! What `replay` gives: the verdict on a printed text.

ghost use Rattle.std.specs.Prelude.{◌≤◌, length, IfErr, IfOk};
ghost use Rattle.coati_replay.specs.Text.{IsTextOf};
ghost use Rattle.coati_top.specs.Answer.{Serves};
ghost use Rattle.coati_top.specs.declared.command.Command.{Command};
ghost use Rattle.coati_top.specs.Divided.{second_part};
ghost use Rattle.coati_top.specs.Refused.{IsUnserved, RefusesReplay};
ghost use Rattle.coati_top.specs.Served.{served_board, served_text};
ghost use Rattle.coati_top.specs.Source.{HasAccepted};
ghost use Rattle.trace_out.specs.Printed.{PrintedText};

use crate::divided::second_part;
use crate::judged_texts::printed_texts_may_be_judged;
use crate::refusal::{Refusal, Unserved};
use crate::served::{Served, accepted};
use crate::verdict_text::serial_text;
use coati_replay::{Verdict, replay, serial_texts_are_legal};
use coati_word::Mode;
use serial_log::Printed;
use std::alloc::Global;
use task_check::Checked;
use trace_out::{PrintFault, read_print};

/// What `replay` gives.
pub(crate) fn replayed(alloc: Global, mode: Mode, input: &[u8]) -> Result<Served, Unserved>
    requires { length input.now ≤ 262144 }
    ensures served { IfOk result (λ given. Serves (Command.Replay mode) input.now
        (served_text given) (served_board given)) }
    ensures unserved { IfErr result (IsUnserved (RefusesReplay mode input.now)) }
{
    serial_texts_are_legal();
    let checked = accepted(alloc, input)?;
    let printed = said(alloc, mode, input, &checked)?;
    match replay(alloc, &checked, mode, &printed)? {
        Verdict::Serial => {
            let text = serial_text(alloc)?;
            Ok(Served::Text(text))
        }
        Verdict::Differs(number) => Err(Unserved::Refused(Refusal::Differs(number))),
    }
}

/// What the input's second part says, where it is a printed text of its program.
fn said(alloc: Global, mode: Mode, input: &[u8], checked: &Checked) -> Result<Printed, Unserved>
    requires small { length input.now ≤ 262144 }
    requires source { HasAccepted input.now checked.now }
    ensures text { IfOk result (PrintedText checked.now (second_part input.now)) }
    ensures judged { IfOk result (IsTextOf checked.now) }
    ensures unserved { IfErr result (IsUnserved (RefusesReplay mode input.now)) }
{
    printed_texts_may_be_judged();
    match read_print(alloc, checked, second_part(input)) {
        Ok(printed) => Ok(printed),
        Err(PrintFault::BadLine(number)) => Err(Unserved::Refused(Refusal::BadPrint(number))),
        Err(PrintFault::OutOfMemory) => Err(Unserved::OutOfMemory),
    }
}
