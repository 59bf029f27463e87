//! What is answered to an input.
ghost use Rattle.std.specs.Prelude.{◌≡◌, ◌≤◌, true, IfOk, length};
ghost use Rattle.coati_top.specs.Divided.{second_part};
ghost use Rattle.coati_top.specs.Source.{HasAccepted, IsSourceFault};
ghost use Rattle.trace_text.specs.Answer.{Explains};
ghost use Rattle.trace_text.specs.Trace.{TraceText};
ghost use Rattle.coati_explain.specs.Answer.{IsExplanation, has_trace};

use crate::accepted::{put_accepted, put_script};
use crate::source_text::source_text;
use crate::trace_message::trace_text_of;
use coati_top::{NoProgram, SourceFault, Status, read_source, second_part, source_part};
use coati_word::OutOfMemory;
use serial_log::Script;
use std::alloc::Global;
use task_check::Checked;
use trace_text::{TraceFault, read_trace, scripts_are_within_the_limits};

/// What is answered to an input.
#[derive(Drop)]
pub(crate) struct Reply {
    pub(crate) status: Status,
    pub(crate) text: Vec<u8>,
}

/// The answer to the input.
pub(crate) fn answer_to(alloc: Global, input: &[u8]) -> Result<Reply, OutOfMemory>
    requires { length input.now ≤ 262144 }
    ensures { IfOk result (λ reply. IsExplanation input.now reply.status reply.text.items) }
{
    match read_source(alloc, input) {
        Ok(checked) => answer_about(alloc, input, &checked),
        Err(NoProgram::Fault(fault)) => refused(alloc, input, fault),
        Err(NoProgram::OutOfMemory) => Err(OutOfMemory),
    }
}

/// The answer to an input whose source is refused.
fn refused(alloc: Global, input: &[u8], fault: SourceFault) -> Result<Reply, OutOfMemory>
    requires small { length input.now ≤ 262144 }
    requires fault { IsSourceFault input.now fault }
    ensures { IfOk result (λ reply. IsExplanation input.now reply.status reply.text.items) }
{
    let text = source_text(alloc, input, fault)?;
    Ok(Reply {
        status: Status::Refused,
        text,
    })
}

/// The answer to an input whose source is accepted.
fn answer_about(alloc: Global, input: &[u8], checked: &Checked) -> Result<Reply, OutOfMemory>
    requires small { length input.now ≤ 262144 }
    requires source { HasAccepted input.now checked.now }
    ensures { IfOk result (λ reply. IsExplanation input.now reply.status reply.text.items) }
{
    if has_trace(input) {
        return answer_about_trace(alloc, input, checked);
    }
    let mut text = Vec::new(alloc);
    put_accepted(&mut text, checked)?;
    Ok(Reply {
        status: Status::Ok,
        text,
    })
}

/// Whether a line `%%` ends the source.
fn has_trace(input: &[u8]) -> bool
    ensures { result ≡ has_trace input.now }
{
    source_part(input).len() < input.len()
}

/// The answer to an input whose source is accepted and that has a trace.
fn answer_about_trace(alloc: Global, input: &[u8], checked: &Checked) -> Result<Reply, OutOfMemory>
    requires small { length input.now ≤ 262144 }
    requires source { HasAccepted input.now checked.now }
    requires trace { has_trace input.now ≡ true }
    ensures { IfOk result (λ reply. IsExplanation input.now reply.status reply.text.items) }
{
    match read_trace(alloc, checked, second_part(input)) {
        Ok(script) => traced(alloc, input, checked, &script),
        Err(fault) => untraced(alloc, input, checked, fault),
    }
}

/// The answer to an input whose trace is at fault.
fn untraced(
    alloc: Global,
    input: &[u8],
    checked: &Checked,
    fault: TraceFault,
) -> Result<Reply, OutOfMemory>
    requires small { length input.now ≤ 262144 }
    requires source { HasAccepted input.now checked.now }
    requires trace { has_trace input.now ≡ true }
    requires fault { Explains checked.now (second_part input.now) fault }
    ensures { IfOk result (λ reply. IsExplanation input.now reply.status reply.text.items) }
{
    let text = trace_text_of(alloc, input, fault)?;
    Ok(Reply {
        status: Status::BadTrace,
        text,
    })
}

/// The answer to an input that is accepted whole.
fn traced(
    alloc: Global,
    input: &[u8],
    checked: &Checked,
    script: &Script,
) -> Result<Reply, OutOfMemory>
    requires source { HasAccepted input.now checked.now }
    requires trace { has_trace input.now ≡ true }
    requires script { TraceText checked.now (second_part input.now) script.now }
    ensures { IfOk result (λ reply. IsExplanation input.now reply.status reply.text.items) }
{
    scripts_are_within_the_limits();
    let mut text = Vec::new(alloc);
    put_accepted(&mut text, checked)?;
    put_script(&mut text, script)?;
    Ok(Reply {
        status: Status::Ok,
        text,
    })
}
