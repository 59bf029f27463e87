//! What units read, and what variables hold, in a line.

ghost use Rattle.std.specs.Prelude.{◌≡◌, ◌+◌, ◌<◌, ◌≤◌, IfOk, IfSome, length};
ghost use Rattle.std.specs.Option.{option_map};
ghost use Rattle.task_syntax.specs.Names.{count_of};
ghost use Rattle.trace_out.specs.LineReading.{reading_at, readings_in, value_at, values_at, values_in, values_text};

use crate::front::{behind, number_at};
use crate::lookups::word_at;
use coati_word::{OutOfMemory, Reading};
use sqlite_items::Items;
use std::alloc::Global;
use task_check::Checked;
use task_syntax::Var;

/// The readings that the text tells up to its end.
pub(crate) fn readings_in(
    alloc: Global,
    checked: &Checked,
    text: &[u8],
) -> Result<Option<Items<Reading>>, OutOfMemory>
    ensures readings { IfOk result (λ found. found ≡ readings_in checked.now text.now) }
    ensures few { IfOk result (λ found. IfSome found (λ readings. length readings
        ≤ length text.now)) }
{
    let mut readings = Items::new(alloc);
    let mut left = text;
    while !left.is_empty() {
        match reading_at(checked, left) {
            Some((reading, rest)) => {
                readings.push(reading)?;
                left = rest;
            }
            None => return Ok(None),
        }
    }
    Ok(Some(readings))
}

/// A blank, a variable word and what was read there.
#[tactic(auto, unfolding(crate::specs::LineReading::reading_at))]
fn reading_at<'a>(checked: &Checked, text: &'a [u8]) -> Option<(Reading, &'a [u8])>
    ensures reading { option_map (λ found. (found.0, found.1.now)) result
        ≡ reading_at checked.now text.now }
    ensures shorter { IfSome result (λ found. length found.1.now < length text.now) }
{
    let text = behind(text, b" ")?;
    let (word, text) = word_at(checked, text)?;
    let text = behind(text, b"=")?;
    let (value, text) = number_at(u32::from(u16::MAX), text)?;
    let reading = Reading {
        word,
        value: value as u16,
    };
    Some((reading, text))
}

/// The values of the variable that the line tells; none where it isn't the line of this variable.
#[tactic(auto, unfolding(crate::specs::LineReading::values_in))]
pub(crate) fn values_in(
    alloc: Global,
    var: &Var,
    line: &[u8],
) -> Result<Option<Items<u16>>, OutOfMemory>
    ensures { IfOk result (λ found. found ≡ values_in var.now line.now) }
{
    match values_text(var, line) {
        Some(text) => values_at(alloc, var.length.unwrap_or(1), text),
        None => Ok(None),
    }
}

/// Where the values of the variable begin in its line.
#[tactic(auto, unfolding(crate::specs::LineReading::values_text))]
fn values_text<'a>(var: &Var, line: &'a [u8]) -> Option<&'a [u8]>
    ensures { option_map (λ text. text.now) result ≡ values_text var.now line.now }
{
    behind(behind(line, b"var ")?, var.name.text.as_slice())
}

/// So many values, and nothing behind them.
#[tactic(auto, unfolding(crate::specs::LineReading::values_at))]
fn values_at(alloc: Global, count: u16, text: &[u8]) -> Result<Option<Items<u16>>, OutOfMemory>
    ensures { IfOk result (λ found. found ≡ values_at count text.now) }
{
    let mut values = Items::new(alloc);
    let mut left = text;
    for _ in 0..count {
        match value_at(left) {
            Some((value, rest)) => {
                values.push(value)?;
                left = rest;
            }
            None => return Ok(None),
        }
    }
    if left.is_empty() {
        Ok(Some(values))
    } else {
        Ok(None)
    }
}

/// A blank and a value.
#[tactic(auto, unfolding(crate::specs::LineReading::value_at))]
fn value_at(text: &[u8]) -> Option<(u16, &[u8])>
    ensures { option_map (λ found. (found.0, found.1.now)) result ≡ value_at text.now }
{
    let (value, rest) = number_at(u32::from(u16::MAX), behind(text, b" ")?)?;
    Some((value as u16, rest))
}
