//! What a name at the front of a text stands for.

ghost use Rattle.std.specs.Prelude.{◌≡◌, ◌+◌, ◌<◌, ◌≤◌, All, IfSome, flat_map, length};
ghost use Rattle.std.specs.Option.{option_map};
ghost use Rattle.task_check.specs.Counts.{transactions, transactions_of_unit};
ghost use Rattle.task_check.specs.Numbers.{first_and_length};
ghost use Rattle.task_syntax.specs.declared.program.Var.{Var};
ghost use Rattle.task_syntax.specs.Names.{count_of, task_from, tasks, tasks_of_unit, word_count, words_from};
ghost use Rattle.trace_out.specs.Lookups.{event_at, index_at, task_at, transaction_at, transaction_from, word_among, word_at};

use crate::front::{behind, name_at, number_at};
use task_check::Checked;
use task_syntax::{TaskDecl, UnitDecl, Var};

#[tactic(auto, unfolding(crate::specs::Lookups::task_at))]
pub(crate) fn task_at<'a>(checked: &Checked, text: &'a [u8]) -> Option<(u16, &'a [u8])>
    ensures { option_map (λ found. (found.0, found.1.now)) result ≡ task_at checked.now text.now }
{
    let (name, rest) = name_at(text);
    let task = task_named(checked.program().units.as_slice(), name)?;
    Some((task, rest))
}

#[tactic(auto, unfolding(crate::specs::Lookups::transaction_at))]
pub(crate) fn transaction_at<'a>(checked: &Checked, text: &'a [u8]) -> Option<(u16, &'a [u8])>
    ensures { option_map (λ found. (found.0, found.1.now)) result
        ≡ transaction_at checked.now text.now }
{
    let (name, rest) = name_at(text);
    let tx = transaction_named(checked.program().units.as_slice(), name)?;
    Some((tx, rest))
}

#[tactic(auto, unfolding(crate::specs::Lookups::event_at))]
pub(crate) fn event_at<'a>(checked: &Checked, text: &'a [u8]) -> Option<(u16, &'a [u8])>
    ensures { option_map (λ found. (found.0, found.1.now)) result ≡ event_at checked.now text.now }
{
    let (name, rest) = name_at(text);
    let event = checked.event_named(name)?;
    Some((event, rest))
}

/// A variable word: the name of a scalar, or that of an array with an index in brackets.
#[tactic(auto, unfolding(crate::specs::Lookups::word_at))]
pub(crate) fn word_at<'a>(checked: &Checked, text: &'a [u8]) -> Option<(u16, &'a [u8])>
    ensures word { option_map (λ found. (found.0, found.1.now)) result
        ≡ word_at checked.now text.now }
    ensures shorter { IfSome result (λ found. length found.1.now ≤ length text.now) }
{
    let (name, rest) = name_at(text);
    let (first, items) = words_named(checked.program().vars.as_slice(), name)?;
    word_among(first, items, rest)
}

/// The word of a variable that begins at `first`; of an array with so many items an index follows.
fn word_among(first: u16, items: Option<u16>, text: &[u8]) -> Option<(u16, &[u8])>
    requires some { 0 < count_of items }
    requires most { first + count_of items ≤ 256 }
    ensures word { option_map (λ found. (found.0, found.1.now)) result
        ≡ word_among first items text.now }
    ensures shorter { IfSome result (λ found. length found.1.now ≤ length text.now) }
{
    match items {
        None => Some((first, text)),
        Some(items) => {
            let (index, rest) = index_at(items, text)?;
            Some((first + index, rest))
        }
    }
}

/// The index in an array of so many items, in brackets.
#[tactic(auto, unfolding(crate::specs::Lookups::index_at))]
fn index_at(items: u16, text: &[u8]) -> Option<(u16, &[u8])>
    requires { 0 < items }
    ensures index { option_map (λ found. (found.0, found.1.now)) result
        ≡ index_at items text.now }
    ensures within { IfSome result (λ found. found.0 < items) }
    ensures shorter { IfSome result (λ found. length found.1.now ≤ length text.now) }
{
    let text = behind(text, b"[")?;
    let (index, text) = number_at(u32::from(items - 1), text)?;
    let text = behind(text, b"]")?;
    Some((index as u16, text))
}

/// The number of the task of a name.
fn task_named(units: &[UnitDecl], name: &[u8]) -> Option<u16>
    requires { length (flat_map tasks_of_unit units.now) ≤ 64 }
    ensures { result ≡ task_from 0 (flat_map tasks_of_unit units.now) name.now }
{
    let mut first = 0;
    for unit in units {
        let tasks = unit.tasks();
        if let Some(task) = task_among(first, tasks, name) {
            return Some(task);
        }
        first += tasks.len() as u16;
    }
    None
}

/// The number of the task of a name among these, the first of which has the number `first`.
fn task_among(first: u16, tasks: &[TaskDecl], name: &[u8]) -> Option<u16>
    requires { first + length tasks.now ≤ 64 }
    ensures { result ≡ task_from first tasks.now name.now }
{
    let mut number = first;
    for task in tasks {
        if task.name.text.as_slice() == name {
            return Some(number);
        }
        number += 1;
    }
    None
}

/// The number of the transaction of a name.
fn transaction_named(units: &[UnitDecl], name: &[u8]) -> Option<u16>
    requires { length (flat_map transactions_of_unit units.now) ≤ 16 }
    ensures { result ≡ transaction_from 0 (flat_map transactions_of_unit units.now) name.now }
{
    let mut number = 0;
    for unit in units {
        if let UnitDecl::Tx(tx) = unit {
            if tx.name.text.as_slice() == name {
                return Some(number);
            }
            number += 1;
        }
    }
    None
}

/// The first word of the variable of a name, and how many an array has.
fn words_named(vars: &[Var], name: &[u8]) -> Option<(u16, Option<u16>)>
    requires few { word_count vars.now ≤ 256 }
    requires full { All (λ (var : Var). 0 < count_of var.length) vars.now }
    ensures words { option_map first_and_length (words_from 0 vars.now name.now) ≡ result }
    ensures some { IfSome result (λ words. 0 < count_of words.1) }
    ensures most { IfSome result (λ words. words.0 + count_of words.1 ≤ 256) }
{
    let mut first = 0;
    for var in vars {
        if var.name.text.as_slice() == name {
            return Some((first, var.length));
        }
        first += var.length.unwrap_or(1);
    }
    None
}
