ghost use Rattle.std.specs.Prelude.{◌≡◌, ◌≢◌, ◌++◌, OnOk};
ghost use Rattle.coati_explain.specs.Labels.{label_of, line_label, trace_label};

use coati_top::{SourceFault, put, put_number, put_rule, rule_number};
use coati_word::OutOfMemory;
use task_check::Rule;
use trace_text::TraceFault;

/// Appends the refusal of a source.
pub(crate) fn put_label(out: &mut Vec<u8>, fault: SourceFault) -> Result<(), OutOfMemory>
    ensures { OnOk result (out.new.items ≡ out.old.items ++ label_of fault) }
{
    match fault {
        SourceFault::Lexical(at) => put_number(out, b"lexical", at),
        SourceFault::Number(at) => put_number(out, b"number", at),
        SourceFault::Syntax(token) => put_number(out, b"syntax", token),
        SourceFault::Deep(token) => put_number(out, b"deep", token),
        SourceFault::Rule(rule, _) => put_rule_label(out, rule),
    }
}

fn put_rule_label(out: &mut Vec<u8>, rule: Rule) -> Result<(), OutOfMemory>
    ensures { OnOk result (out.new.items ≡ out.old.items ++ label_of (SourceFault.Rule rule 0)) }
{
    put_number(out, b"rule", rule_number(rule))?;
    put(out, b" ")?;
    put_rule(out, rule)
}

/// Appends the refusal of a trace.
pub(crate) fn put_trace_label(out: &mut Vec<u8>, fault: TraceFault) -> Result<(), OutOfMemory>
    ensures text { OnOk result (out.new.items ≡ out.old.items ++ trace_label fault) }
    ensures told { OnOk result (fault ≢ TraceFault.OutOfMemory) }
{
    match fault {
        TraceFault::BadLine(number) => put_line_label(out, number, b"bad"),
        TraceFault::Unknown(number) => put_line_label(out, number, b"unknown"),
        TraceFault::Order(number) => put_line_label(out, number, b"order"),
        TraceFault::TooMany(number) => put_line_label(out, number, b"many"),
        TraceFault::NoLimit => put(out, b"trace without limit"),
        TraceFault::OutOfMemory => Err(OutOfMemory),
    }
}

/// Appends the refusal of a line.
fn put_line_label(out: &mut Vec<u8>, number: u32, reason: &[u8]) -> Result<(), OutOfMemory>
    ensures { OnOk result (out.new.items ≡ out.old.items ++ line_label number reason.now) }
{
    put_number(out, b"trace line", number)?;
    put(out, b" ")?;
    put(out, reason)
}
