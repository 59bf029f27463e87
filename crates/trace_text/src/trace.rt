ghost use Rattle.std.specs.Prelude.{◌≡◌, ◌<◌, ◌^◌, true, length, Ok, Err, IfOk, IfErr, IfSome};
ghost use Rattle.task_cost.specs.Limits.{handler_bound};
ghost use Rattle.serial_log.specs.declared.script.Script.{Script};
ghost use Rattle.trace_text.specs.Answer.{Explains, IsAnswer};
ghost use Rattle.trace_text.specs.Reading.{line_reading, reading};
ghost use Rattle.trace_text.specs.Trace.{FirstFault, TraceText, is_within};

use crate::TraceFault;
use crate::fields::is_quiet;
use crate::script::{with_limit, with_line};
use coati_text::lines;
use serial_log::Script;
use std::alloc::Global;
use task_check::Checked;
use task_cost::bounds;

/// Reads a trace: the script of a run of the program. A text that is none is refused with its
/// first fault.
pub fn read_trace(alloc: Global, checked: &Checked, text: &[u8]) -> Result<Script, TraceFault>
    requires { length text.now < 2 ^ 31 }
    ensures script { IfOk result (TraceText checked.now text.now) }
    ensures fault { IfErr result (Explains checked.now text.now) }

    // A text that is a script is read as that script, and one with a first fault is refused with
    // it.
    ensures scripts { (script : Script) → TraceText checked.now text.now script
        → IsAnswer result (Ok script) }
    ensures faults { (fault : TraceFault) → FirstFault checked.now text.now fault
        → IsAnswer result (Err fault) }
{
    script_of(alloc, checked, text)
}

/// The script of a text, line by line.
fn script_of(alloc: Global, checked: &Checked, text: &[u8]) -> Result<Script, TraceFault>
    requires { length text.now < 2 ^ 31 }
    ensures { IsAnswer result (reading checked.now text.now) }
{
    let handler = bounds(checked).h;
    let mut told = None;
    let mut number = 0;
    for line in lines(text) {
        number += 1;
        if !is_quiet(line) {
            told = Some(behind_line(alloc, checked, handler, told, number, line)?);
        }
    }
    told.ok_or(TraceFault::NoLimit)
}

/// The script behind the line of this number, where the lines before it told this one or none.
fn behind_line(
    alloc: Global,
    checked: &Checked,
    handler: u32,
    told: Option<Script>,
    number: u32,
    line: &[u8],
) -> Result<Script, TraceFault>
    requires handler { handler ≡ handler_bound checked.now }
    requires within { IfSome told (λ script. is_within checked.now script ≡ true) }
    ensures read { IsAnswer result (line_reading checked.now number told line.now) }
    ensures within { IfOk result (λ script. is_within checked.now script ≡ true) }
{
    match told {
        None => with_limit(alloc, checked, number, line),
        Some(script) => with_line(checked, handler, script, number, line),
    }
}
