ghost use Rattle.std.specs.Prelude.{◌≡◌, ℕ, ◌<◌, ◌^◌, length, Ok, Err, IfOk, IfErr};
ghost use Rattle.serial_log.specs.declared.printed.Printed.{Printed};
ghost use Rattle.trace_out.specs.Answer.{Explains, IsAnswer};
ghost use Rattle.trace_out.specs.Printed.{IsBadLine, PrintedText};
ghost use Rattle.trace_out.specs.Reading.{reading};

use crate::PrintFault;
use crate::stage::Stage;
use coati_text::lines;
use serial_log::Printed;
use std::alloc::Global;
use task_check::Checked;

/// Reads the printed text of a run of the program. A text that is none is refused with its first
/// line that has no form that is allowed there; a line may be missing, or stand behind the last.
pub fn read_print(alloc: Global, checked: &Checked, text: &[u8]) -> Result<Printed, PrintFault>
    requires { length text.now < 2 ^ 31 }
    ensures printed { IfOk result (PrintedText checked.now text.now) }
    ensures fault { IfErr result (Explains checked.now text.now) }

    // What a text says is read as that, and one with a first bad line is refused with it.
    ensures prints { (printed : Printed) → PrintedText checked.now text.now printed
        → IsAnswer result (Ok printed) }
    ensures faults { (number : ℕ) → IsBadLine checked.now text.now number
        → IsAnswer result (Err (PrintFault.BadLine number)) }
{
    let _program = checked.program();
    printed_of(alloc, checked, text)
}

/// What a text says, line by line.
fn printed_of(alloc: Global, checked: &Checked, text: &[u8]) -> Result<Printed, PrintFault>
    requires { length text.now < 2 ^ 31 }
    ensures { IsAnswer result (reading checked.now text.now) }
{
    let mut stage = Stage::Nothing;
    let mut number = 1;
    for line in lines(text) {
        stage = stage
            .behind(alloc, checked, line)?
            .ok_or(PrintFault::BadLine(number))?;
        number += 1;
    }
    match stage {
        Stage::Whole(printed) => Ok(printed),
        _ => Err(PrintFault::BadLine(number)),
    }
}
