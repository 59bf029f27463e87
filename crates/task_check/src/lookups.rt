//! What the names and the numbers of a program stand for. Its sizes are within the limits.
ghost use Rattle.std.specs.Prelude.{◌≡◌, ◌+◌, ◌^◌, ◌<◌, ◌≤◌, All, IfSome, Some, flat_map, length, option_and_then, slice_get, unwrap_or};
ghost use Rattle.std.specs.Option.{ForSome, option_map};
ghost use Rattle.task_syntax.specs.declared.program.Var.{Var};
ghost use Rattle.task_syntax.specs.declared.program.UnitDecl.{UnitDecl};
ghost use Rattle.task_syntax.specs.Names.{count_of, first_values, given_values, task_from, tasks_of_unit, word_count, words_from};
ghost use Rattle.task_syntax.specs.Units.{first_from, memberships};
ghost use Rattle.task_check.specs.Counts.{transactions_of_unit};
ghost use Rattle.task_check.specs.Numbers.{event_from, first_and_length};
ghost use Rattle.task_check.specs.Sizes.{GivenFits};

use crate::rules::{count_with, own_number};
use task_syntax::{Event, Init, NameText, TaskDecl, UnitDecl, Var};

/// How many words the variables have.
pub(crate) fn words(vars: &[Var]) -> u16
    requires { word_count vars.now ≤ 256 }
    ensures { result ≡ word_count vars.now }
{
    let mut words = 0;
    for var in vars {
        words += var.length.unwrap_or(1);
    }
    words
}

/// The first word of the variable of a name, and how many an array has.
pub(crate) fn word_of(vars: &[Var], name: &NameText) -> Option<(u16, Option<u16>)>
    requires few { word_count vars.now ≤ 256 }
    requires full { All (λ (var : Var). 0 < count_of var.length) vars.now }
    ensures words { result ≡ option_map first_and_length (words_from 0 vars.now name.now) }
    ensures some { IfSome result (λ words. 0 < count_of words.1) }
    ensures within { IfSome result (λ words. words.0 + count_of words.1 ≤ word_count vars.now) }
    ensures most { IfSome result (λ words. words.0 + count_of words.1 ≤ 256) }
{
    let mut first = 0;
    for var in vars {
        if var.name.text == *name {
            return Some((first, var.length));
        }
        first += var.length.unwrap_or(1);
    }
    None
}

/// What a word holds at first.
pub(crate) fn opening(vars: &[Var], word: u16) -> u16
    requires within { word < word_count vars.now }
    requires fit { All GivenFits vars.now }
    ensures { slice_get (flat_map first_values vars.now) word ≡ Some result }
{
    let mut left = word;
    for var in vars {
        let count = var.length.unwrap_or(1);
        if left < count {
            return given_value(&var.init, left);
        }
        left -= count;
    }
    unreachable!()
}

/// What a variable's word of this number holds at first, within the variable.
fn given_value(init: &Init, word: u16) -> u16
    ensures { result ≡ unwrap_or (slice_get (given_values init.now) word) 0 }
{
    match init {
        Init::None => 0,
        Init::One(value) => { if word == 0 { *value } else { 0 } }
        Init::Many(values) => values
            .as_slice()
            .get(usize::from(word))
            .copied()
            .unwrap_or(0),
    }
}

/// How many tasks the units have.
pub(crate) fn tasks(units: &[UnitDecl]) -> u16
    requires { length (flat_map tasks_of_unit units.now) ≤ 64 }
    ensures { result ≡ length (flat_map tasks_of_unit units.now) }
{
    let mut tasks = 0;
    for unit in units {
        tasks += unit.tasks().len() as u16;
    }
    tasks
}

/// The number of the task of a name.
pub(crate) fn task_of(units: &[UnitDecl], name: &NameText) -> Option<u16>
    requires { length (flat_map tasks_of_unit units.now) ≤ 64 }
    ensures task { result ≡ task_from 0 (flat_map tasks_of_unit units.now) name.now }
    ensures within { IfSome result (λ task. task < length (flat_map tasks_of_unit units.now)) }
{
    let mut first = 0;
    for unit in units {
        let tasks = unit.tasks();
        if let Some(task) = task_among(first, tasks, name) {
            return Some(task);
        }
        first += tasks.len() as u16;
    }
    None
}

/// The number of the task of a name among these, the first of which has the number `first`.
fn task_among(first: u16, tasks: &[TaskDecl], name: &NameText) -> Option<u16>
    requires { first + length tasks.now ≤ 64 }
    ensures task { result ≡ task_from first tasks.now name.now }
    ensures within { IfSome result (λ task. task < first + length tasks.now) }
{
    let mut number = first;
    for task in tasks {
        if task.name.text == *name {
            return Some(number);
        }
        number += 1;
    }
    None
}

/// The number of the event of a name.
pub(crate) fn event_named(events: &[Event], name: &[u8]) -> Option<u16>
    requires { length events.now ≤ 16 }
    ensures event { result ≡ event_from 0 events.now name.now }
    ensures within { IfSome result (λ event. event < length events.now) }
{
    let mut number = 0;
    for event in events {
        if event.name.text.as_slice() == name {
            return Some(number);
        }
        number += 1;
    }
    None
}

/// How many transactions the units are.
pub(crate) fn transactions(units: &[UnitDecl]) -> u16
    requires { length (flat_map transactions_of_unit units.now) ≤ 16 }
    ensures { result ≡ length (flat_map transactions_of_unit units.now) }
{
    let mut transactions = 0;
    for unit in units {
        transactions = count_with(unit, transactions);
    }
    transactions as u16
}

/// The transaction of a task; a lone task has none.
pub(crate) fn tx_of_task(units: &[UnitDecl], task: u16) -> Option<u16>
    requires { length (flat_map transactions_of_unit units.now) ≤ 16 }
    ensures tx { result ≡ option_and_then (λ tx. tx) (slice_get (memberships 0 units.now) task) }
    ensures within { IfSome result (λ tx. tx < length (flat_map transactions_of_unit units.now)) }
{
    let mut left = usize::from(task);
    let mut transactions = 0;
    for unit in units {
        let count = unit.tasks().len();
        if left < count {
            return narrow(own_number(unit, transactions));
        }
        left -= count;
        transactions = count_with(unit, transactions);
    }
    None
}

/// A number that fits 16 bits.
fn narrow(number: Option<usize>) -> Option<u16>
    requires { ForSome number (λ number. number < 2 ^ 16) }
    ensures { result ≡ number }
{
    match number {
        Some(number) => Some(number as u16),
        None => None,
    }
}

/// The first task of a transaction.
pub(crate) fn first_of_tx(units: &[UnitDecl], tx: u16) -> u16
    requires transaction { tx < length (flat_map transactions_of_unit units.now) }
    requires few { length (flat_map tasks_of_unit units.now) ≤ 64 }
    requires full { All (λ (unit : UnitDecl). 0 < length (tasks_of_unit unit)) units.now }
    ensures first { first_from tx 0 (memberships 0 units.now) ≡ Some result }
    ensures within { result < length (flat_map tasks_of_unit units.now) }
{
    let mut first = 0;
    let mut transactions = 0;
    for unit in units {
        if own_number(unit, transactions) == Some(usize::from(tx)) {
            return first;
        }
        first += unit.tasks().len() as u16;
        transactions = count_with(unit, transactions);
    }
    unreachable!()
}
