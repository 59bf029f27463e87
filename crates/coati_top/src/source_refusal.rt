ghost use Rattle.std.specs.Prelude.{◌≡◌, ◌++◌, IfOk, OnOk};
ghost use Rattle.coati_top.specs.Refusal.{fault_text, rule_text, source_refusal};
ghost use Rattle.task_check.specs.Accepted.{number_of};

use crate::source_fault::SourceFault;
use coati_word::OutOfMemory;
use std::alloc::Global;
use task_check::Rule;
use trace_out::{put, put_number};

/// The line that says what is wrong with a source.
pub(crate) fn source_refusal(alloc: Global, fault: SourceFault) -> Result<Vec<u8>, OutOfMemory>
    ensures { IfOk result (λ text. text.items ≡ source_refusal fault) }
{
    let mut out = Vec::from_slice(alloc, b"refused ")?;
    put_fault(&mut out, fault)?;
    put(&mut out, b"\n")?;
    Ok(out)
}

fn put_fault(out: &mut Vec<u8>, fault: SourceFault) -> Result<(), OutOfMemory>
    ensures { OnOk result (out.new.items ≡ out.old.items ++ fault_text fault) }
{
    match fault {
        SourceFault::Lexical(at) => put_number(out, b"lexical", at),
        SourceFault::Number(at) => put_number(out, b"number", at),
        SourceFault::Syntax(token) => put_number(out, b"syntax", token),
        SourceFault::Deep(token) => put_number(out, b"deep", token),
        SourceFault::Rule(rule, at) => put_broken(out, rule, at),
    }
}

fn put_broken(out: &mut Vec<u8>, rule: Rule, at: u32) -> Result<(), OutOfMemory>
    ensures { OnOk result (out.new.items ≡ out.old.items
        ++ fault_text (SourceFault.Rule rule at)) }
{
    put_number(out, b"rule", rule_number(rule))?;
    put(out, b" ")?;
    put_rule(out, rule)?;
    put_number(out, b" at", at)
}

/// The number of a rule.
pub fn rule_number(rule: Rule) -> u32
    ensures { result ≡ number_of rule }
{
    match rule {
        Rule::TwiceNamed => 1,
        Rule::Unknown => 2,
        Rule::WrongKind => 3,
        Rule::BadCount => 4,
        Rule::BadBuffer => 5,
        Rule::TooManyWords => 6,
        Rule::TooManyTasks => 7,
        Rule::NoEnding => 8,
        Rule::EarlyEnding => 9,
        Rule::IntoTx => 10,
        Rule::TopReadsNv => 11,
        Rule::GiveShape => 12,
        Rule::LoopAssigned => 13,
        Rule::TooManyLocals => 14,
        Rule::TooDeepStack => 15,
        Rule::TooLong(_) => 16,
    }
}

/// The name of a rule, and the number that it tells.
pub fn put_rule(out: &mut Vec<u8>, rule: Rule) -> Result<(), OutOfMemory>
    ensures { OnOk result (out.new.items ≡ out.old.items ++ rule_text rule) }
{
    match rule {
        Rule::TwiceNamed => put(out, b"TwiceNamed"),
        Rule::Unknown => put(out, b"Unknown"),
        Rule::WrongKind => put(out, b"WrongKind"),
        Rule::BadCount => put(out, b"BadCount"),
        Rule::BadBuffer => put(out, b"BadBuffer"),
        Rule::TooManyWords => put(out, b"TooManyWords"),
        Rule::TooManyTasks => put(out, b"TooManyTasks"),
        Rule::NoEnding => put(out, b"NoEnding"),
        Rule::EarlyEnding => put(out, b"EarlyEnding"),
        Rule::IntoTx => put(out, b"IntoTx"),
        Rule::TopReadsNv => put(out, b"TopReadsNv"),
        Rule::GiveShape => put(out, b"GiveShape"),
        Rule::LoopAssigned => put(out, b"LoopAssigned"),
        Rule::TooManyLocals => put(out, b"TooManyLocals"),
        Rule::TooDeepStack => put(out, b"TooDeepStack"),
        Rule::TooLong(number) => put_number(out, b"TooLong", number),
    }
}
