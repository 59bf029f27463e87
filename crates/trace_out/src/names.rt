//! How tasks, transactions, events and variable words are named.

ghost use Rattle.std.specs.Prelude.{◌≡◌, ℕ, ◌++◌, IfOk, OnOk, flat_map, map};
ghost use Rattle.coati_io.specs.Sending.{Puts};
ghost use Rattle.task_check.specs.Counts.{transactions_of_unit};
ghost use Rattle.task_syntax.specs.Names.{tasks_of_unit};
ghost use Rattle.trace_out.specs.Labels.{label_at, label_text};
ghost use Rattle.trace_out.specs.Names.{event_name, index_text, name_of_task, name_of_transaction};
ghost use Rattle.trace_out.specs.Names.{task_name, texts_of_words, transaction_name, word_text};

use crate::labels::Label;
use coati_io::{Pieces, Sink};
use coati_word::OutOfMemory;
use std::alloc::Global;
use task_check::Checked;
use task_syntax::{TaskDecl, UnitDecl, Var};

/// The names of a program, with those of its tasks and of its variable words by number.
#[derive(Drop)]
pub(crate) struct Names<'a> {
    checked: &'a Checked,
    tasks: Vec<Label<'a>>,
    transactions: Vec<Label<'a>>,
    words: Vec<Label<'a>>,
    ghost each_task: { (task : ℕ) → label_at tasks.items task ≡ task_name checked.now task },
    ghost each_transaction: { (tx : ℕ) → label_at transactions.items tx
        ≡ transaction_name checked.now tx },
    ghost each_word: { (word : ℕ) → label_at words.items word
        ≡ word_text checked.now.vars word },
}

impl<'a> Names<'a> {
    /// The names of this program.
    pub(crate) fn new(alloc: Global, checked: &'a Checked) -> Result<Names<'a>, OutOfMemory>
        ensures { IfOk result (λ names. names.checked.now ≡ checked.now) }
    {
        let program = checked.program();
        let tasks = labels_of_tasks(alloc, program.units.as_slice())?;
        let transactions = labels_of_transactions(alloc, program.units.as_slice())?;
        let words = labels_of_words(alloc, program.vars.as_slice())?;
        Ok(Names {
            checked,
            tasks,
            transactions,
            words,
        })
    }

    /// Puts the name of a task.
    pub(crate) fn put_task<K: Sink>(&self, out: &mut Pieces<K>, task: u16)
        ensures { Puts K.taken K.faults K.spare out.old out.new
            (task_name self.now.checked.now task) }
    {
        put_at(out, self.tasks.as_slice(), task)
    }

    /// Puts the name of a transaction.
    pub(crate) fn put_transaction<K: Sink>(&self, out: &mut Pieces<K>, tx: u16)
        ensures { Puts K.taken K.faults K.spare out.old out.new
            (transaction_name self.now.checked.now tx) }
    {
        put_at(out, self.transactions.as_slice(), tx)
    }

    /// Puts the name of an event.
    pub(crate) fn put_event<K: Sink>(&self, out: &mut Pieces<K>, event: u16)
        ensures { Puts K.taken K.faults K.spare out.old out.new
            (event_name self.now.checked.now event) }
    {
        if event < self.checked.events() {
            out.put(self.checked.event(event).name.text.as_slice());
        }
    }

    /// Puts a variable word: the name of its variable, and its index in an array.
    pub(crate) fn put_word<K: Sink>(&self, out: &mut Pieces<K>, word: u16)
        ensures { Puts K.taken K.faults K.spare out.old out.new
            (word_text self.now.checked.now.vars word) }
    {
        put_at(out, self.words.as_slice(), word)
    }
}

/// The tasks of these units, by number.
fn labels_of_tasks<'a>(alloc: Global, units: &'a [UnitDecl]) -> Result<Vec<Label<'a>>, OutOfMemory>
    ensures { IfOk result (λ labels. map label_text labels.items
        ≡ map name_of_task (flat_map tasks_of_unit units.now)) }
{
    let mut labels = Vec::new(alloc);
    for unit in units {
        push_tasks(&mut labels, unit.tasks())?;
    }
    Ok(labels)
}

/// Appends a label for each of these tasks.
fn push_tasks<'a>(labels: &mut Vec<Label<'a>>, tasks: &'a [TaskDecl]) -> Result<(), OutOfMemory>
    ensures { OnOk result (map label_text labels.new.items
        ≡ map label_text labels.old.items ++ map name_of_task tasks.now) }
{
    for task in tasks {
        labels.push(Label::of_name(&task.name))?;
    }
    Ok(())
}

/// The transactions of these units, by number.
fn labels_of_transactions<'a>(
    alloc: Global,
    units: &'a [UnitDecl],
) -> Result<Vec<Label<'a>>, OutOfMemory>
    ensures { IfOk result (λ labels. map label_text labels.items
        ≡ map name_of_transaction (flat_map transactions_of_unit units.now)) }
{
    let mut labels = Vec::new(alloc);
    for unit in units {
        if let UnitDecl::Tx(tx) = unit {
            labels.push(Label::of_name(&tx.name))?;
        }
    }
    Ok(labels)
}

/// The words of these variables, by number.
fn labels_of_words<'a>(alloc: Global, vars: &'a [Var]) -> Result<Vec<Label<'a>>, OutOfMemory>
    ensures { IfOk result (λ labels. map label_text labels.items
        ≡ flat_map texts_of_words vars.now) }
{
    let mut labels = Vec::new(alloc);
    for var in vars {
        push_words(&mut labels, var)?;
    }
    Ok(labels)
}

/// Appends a label for each word of a variable.
fn push_words<'a>(labels: &mut Vec<Label<'a>>, var: &'a Var) -> Result<(), OutOfMemory>
    ensures { OnOk result (map label_text labels.new.items
        ≡ map label_text labels.old.items ++ texts_of_words var.now) }
{
    for index in 0..var.length.unwrap_or(1) {
        labels.push(Label {
            name: var.name.text.as_slice(),
            length: var.length,
            index,
        })?;
    }
    Ok(())
}

/// Puts the text of the label of a number, where there is one.
fn put_at<K: Sink>(out: &mut Pieces<K>, labels: &[Label], number: u16)
    ensures { Puts K.taken K.faults K.spare out.old out.new (label_at labels.now number) }
{
    match labels.get(usize::from(number)) {
        Some(label) => put_label(out, label),
        None => {}
    }
}

fn put_label<K: Sink>(out: &mut Pieces<K>, label: &Label)
    ensures { Puts K.taken K.faults K.spare out.old out.new (label_text label.now) }
{
    out.put(label.name);
    put_index(out, label.length, label.index)
}

/// Puts which of its variable's words a word is.
fn put_index<K: Sink>(out: &mut Pieces<K>, length: Option<u16>, index: u16)
    ensures { Puts K.taken K.faults K.spare out.old out.new (index_text length index) }
{
    match length {
        None => {}
        Some(_) => {
            out.put(b"[");
            out.put_decimal(u32::from(index));
            out.put(b"]");
        }
    }
}
