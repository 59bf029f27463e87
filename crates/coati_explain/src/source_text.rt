//! What is told of a fault of the source.
ghost use Rattle.std.specs.Prelude.{◌≡◌, ◌++◌, ◌≤◌, All, IfOk, OnOk, length};
ghost use Rattle.task_lex.specs.Reading.{Tokens};
ghost use Rattle.task_lex.specs.Span.{IsTokenOf};
ghost use Rattle.coati_top.specs.Source.{IsSourceFault};
ghost use Rattle.coati_top.specs.Divided.{source_part};
ghost use Rattle.coati_explain.specs.Labels.{label_of};
ghost use Rattle.coati_explain.specs.Messages.{IsExplained, explanation, heading};
ghost use Rattle.coati_explain.specs.Words.{wording};

use crate::asked::asked_of;
use crate::hint::{divider_hint, put_hint};
use crate::label::put_label;
use crate::messages::{
    deep_message, first_byte, front_word, lexical_message, number_message, rule_message, text_from,
};
use crate::shown::{put_caret_line, put_shown_line};
use crate::spot::{Spot, line_of, spot_at};
use crate::token_text::{syntax_message, text_before, token_place, token_text};
use crate::words::{Said, put_words};
use coati_top::{SourceFault, put, put_number, source_part};
use coati_word::OutOfMemory;
use rule_places::laws::broken_rules_begin_tokens;
use std::alloc::Global;
use task_check::Rule;
use task_lex::{Token, lex, tokens_stand_in_their_source};

/// What explains the fault of an input's source.
pub(crate) fn source_text(
    alloc: Global,
    input: &[u8],
    fault: SourceFault,
) -> Result<Vec<u8>, OutOfMemory>
    requires small { length input.now ≤ 262144 }
    requires fault { IsSourceFault input.now fault }
    ensures { IfOk result (λ text. IsExplained (source_part input.now) fault text.items) }
{
    broken_rules_begin_tokens();
    let source = source_part(input);
    match fault {
        SourceFault::Lexical(at) => lexical_text(alloc, source, at),
        SourceFault::Number(at) => number_text(alloc, source, at),
        SourceFault::Syntax(number) => syntax_text(alloc, source, number),
        SourceFault::Deep(number) => deep_text(alloc, source, number),
        SourceFault::Rule(rule, at) => rule_text(alloc, source, rule, at),
    }
}

/// Of a byte that starts nothing.
fn lexical_text(alloc: Global, source: &[u8], at: u32) -> Result<Vec<u8>, OutOfMemory>
    requires small { length source.now ≤ 262144 }
    requires within { at ≤ length source.now }
    ensures { IfOk result (λ text. IsExplained source.now (SourceFault.Lexical at) text.items) }
{
    let rest = text_from(source, at);
    let said = Said {
        message: lexical_message(at, rest),
        word: first_byte(rest),
        before: &[],
    };
    explanation(alloc, source, SourceFault::Lexical(at), at, said)
}

/// Of a number that is none.
fn number_text(alloc: Global, source: &[u8], at: u32) -> Result<Vec<u8>, OutOfMemory>
    requires small { length source.now ≤ 262144 }
    requires within { at ≤ length source.now }
    ensures { IfOk result (λ text. IsExplained source.now (SourceFault.Number at) text.items) }
{
    let word = front_word(text_from(source, at));
    let said = Said {
        message: number_message(word),
        word,
        before: &[],
    };
    explanation(alloc, source, SourceFault::Number(at), at, said)
}

/// Of a token with which no program goes on, or of the source's end.
fn syntax_text(alloc: Global, source: &[u8], number: u32) -> Result<Vec<u8>, OutOfMemory>
    requires small { length source.now ≤ 262144 }
    ensures { IfOk result (λ text. IsExplained source.now (SourceFault.Syntax number) text.items) }
{
    let tokens = tokens_of(alloc, source)?;
    let said = Said {
        message: syntax_message(&tokens, number),
        word: token_text(source, &tokens, number),
        before: text_before(source, &tokens, number),
    };
    let at = token_place(source, &tokens, number);
    explanation(alloc, source, SourceFault::Syntax(number), at, said)
}

/// Of a token that stands too deep.
fn deep_text(alloc: Global, source: &[u8], number: u32) -> Result<Vec<u8>, OutOfMemory>
    requires small { length source.now ≤ 262144 }
    ensures { IfOk result (λ text. IsExplained source.now (SourceFault.Deep number) text.items) }
{
    let tokens = tokens_of(alloc, source)?;
    let word = token_text(source, &tokens, number);
    let said = Said {
        message: deep_message(word),
        word,
        before: text_before(source, &tokens, number),
    };
    let at = token_place(source, &tokens, number);
    explanation(alloc, source, SourceFault::Deep(number), at, said)
}

/// The tokens of a source that has some: no other fault than want of memory comes of it.
fn tokens_of(alloc: Global, source: &[u8]) -> Result<Vec<Token>, OutOfMemory>
    requires { length source.now ≤ 262144 }
    ensures tokens { IfOk result (λ tokens. Tokens source.now tokens.items) }
    ensures texts { IfOk result (λ tokens. All (IsTokenOf source.now) tokens.items) }
{
    tokens_stand_in_their_source();
    lex(alloc, source).map_err(|_| OutOfMemory)
}

/// Of a broken rule.
fn rule_text(alloc: Global, source: &[u8], rule: Rule, at: u32) -> Result<Vec<u8>, OutOfMemory>
    requires small { length source.now ≤ 262144 }
    requires within { at ≤ length source.now }
    ensures { IfOk result (λ text. IsExplained source.now (SourceFault.Rule rule at) text.items) }
{
    let word = front_word(text_from(source, at));
    let said = Said {
        message: rule_message(rule, word),
        word,
        before: &[],
    };
    explanation(alloc, source, SourceFault::Rule(rule, at), at, said)
}

/// A message about a place of the source.
fn explanation(
    alloc: Global,
    source: &[u8],
    fault: SourceFault,
    at: u32,
    said: Said<'_>,
) -> Result<Vec<u8>, OutOfMemory>
    requires small { length source.now ≤ 262144 }
    requires within { at ≤ length source.now }
    ensures { IfOk result (λ text. text.items
        ≡ explanation source.now fault at said.entry.message said.entry.word.now
        said.entry.before.now) }
{
    let here = spot_at(source, at);
    let line = line_of(source, here.line);
    let mut out = Vec::new(alloc);
    put_heading(&mut out, here, fault, said)?;
    put_shown_line(&mut out, line)?;
    put_caret_line(&mut out, here.column)?;
    put(&mut out, asked_of(said.message))?;
    put(&mut out, b"\n")?;
    put_hint(&mut out, divider_hint(line))?;
    Ok(out)
}

/// Appends the line that tells where the fault is, and what.
fn put_heading(
    out: &mut Vec<u8>,
    here: Spot,
    fault: SourceFault,
    said: Said<'_>,
) -> Result<(), OutOfMemory>
    ensures { OnOk result (out.new.items ≡ out.old.items
        ++ heading here (wording said.entry.message said.entry.word.now said.entry.before.now)
        (label_of fault)) }
{
    put_number(out, b"line", here.line)?;
    put_number(out, b", column", here.column)?;
    put(out, b": ")?;
    put_words(out, said)?;
    put(out, b" (")?;
    put_label(out, fault)?;
    put(out, b")\n")
}
