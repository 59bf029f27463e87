ghost use Rattle.std.specs.Prelude.{◌≡◌, ◌+◌, ◌<◌, ◌≤◌, length, slice_get, IfSome, IsTrue, Some};
ghost use Rattle.std.specs.Option.{option_map};
ghost use Rattle.task_syntax.specs.Names.{count_of, opening_values, task_of, tasks, word_count, words_of};
ghost use Rattle.task_syntax.specs.Units.{first_task, statements_of, transaction_of};
ghost use Rattle.task_check.specs.Accepted.{IsAccepted};
ghost use Rattle.task_check.specs.Counts.{transactions};
ghost use Rattle.task_check.specs.Messages.{HasShortMessages, statements_give};
ghost use Rattle.task_check.specs.Numbers.{buffer_size, event_of, first_and_length};
ghost use Rattle.task_check.specs.Sizes.{HasSizes};
ghost use Rattle.task_check.specs.WellFormed.{IsWellFormed};

use crate::counts::task_at;
use crate::lookups;
use coati_word::limits::DEFAULT_BUFFER;
use std::marker::Model;
use task_syntax::{Event, NameText, Program, Stmt, TaskDecl};

/// A program that keeps all rules.
#[derive(Debug, Drop)]
pub struct Checked {
    program: Program,
}

impl Model for Checked {
    ghost use Rattle.task_syntax.specs.declared.program.Program.{Program};
    ghost use Rattle.task_syntax.specs.contracts.program.Program as programs;
    ghost use Rattle.std.specs.Coded.{codes};
    ghost use Rattle.task_check.specs.Accepted.{IsAccepted};
    ghost use Rattle.task_check.specs.WellFormed.{IsWellFormed};

    ghost Value = { Program };

    ghost coded = { Prim.hlevel (codes, programs.the_row.coded) };

    ghost view = { λ checked. checked.program };

    ghost invariant = { λ checked. IsAccepted checked.program × IsWellFormed checked.program };
}

impl Checked {
    pub(crate) fn new(program: Program) -> Checked
        requires accepted { IsAccepted program }
        requires well_formed { IsWellFormed program }
        ensures { result ≡ program }
    {
        Checked { program }
    }

    /// The program.
    pub fn program(&self) -> &Program
        ensures program { result.now ≡ self.now }
        ensures accepted { IsAccepted self.now }
        ensures well_formed { IsWellFormed self.now }
        ensures sizes { HasSizes result.now }
        ensures messages { HasShortMessages result.now }
    {
        &self.program
    }

    /// How many variable words there are, 1 to 256.
    pub fn words(&self) -> u16
        ensures words { result ≡ word_count self.now.vars }
        ensures least { 0 < result }
        ensures most { result ≤ 256 }
    {
        let program = self.program();
        lookups::words(program.vars.as_slice())
    }

    /// How many postings the buffer holds, 1 to 32.
    pub fn buffer(&self) -> u16
        ensures buffer { result ≡ buffer_size self.now }
        ensures least { 0 < result }
        ensures most { result ≤ 32 }
    {
        let program = self.program();
        match &program.buffer {
            Some(number) => number.value,
            None => DEFAULT_BUFFER,
        }
    }

    /// How many tasks there are, 1 to 64.
    pub fn tasks(&self) -> u16
        ensures tasks { result ≡ length (tasks self.now) }
        ensures least { 0 < result }
        ensures most { result ≤ 64 }
    {
        let program = self.program();
        lookups::tasks(program.units.as_slice())
    }

    /// How many events there are, at most 16.
    pub fn events(&self) -> u16
        ensures events { result ≡ length self.now.events }
        ensures most { result ≤ 16 }
    {
        let program = self.program();
        program.events.len() as u16
    }

    /// How many transactions there are, at most 16.
    pub fn transactions(&self) -> u16
        ensures transactions { result ≡ length (transactions self.now) }
        ensures most { result ≤ 16 }
    {
        let program = self.program();
        lookups::transactions(program.units.as_slice())
    }

    /// The first word of the variable of this name, and how many words an array has; none where no
    /// variable has the name.
    pub fn word_of(&self, name: &NameText) -> Option<(u16, Option<u16>)>
        ensures words { result ≡ option_map first_and_length (words_of self.now name.now) }
        ensures some { IfSome result (λ words. 0 < count_of words.1) }
        ensures within { IfSome result (λ words. words.0 + count_of words.1
            ≤ word_count self.now.vars) }
        ensures most { IfSome result (λ words. words.0 + count_of words.1 ≤ 256) }
    {
        let program = self.program();
        lookups::word_of(program.vars.as_slice(), name)
    }

    /// The number of the task of this name; none where no task has the name.
    pub fn task_of(&self, name: &NameText) -> Option<u16>
        ensures task { result ≡ task_of self.now name.now }
        ensures within { IfSome result (λ task. task < length (tasks self.now)) }
    {
        let program = self.program();
        lookups::task_of(program.units.as_slice(), name)
    }

    /// The task of a number.
    pub fn task(&self, task: u16) -> &TaskDecl
        requires { task < length (tasks self.now) }
        ensures { slice_get (tasks self.now) task ≡ Some result.now }
    {
        match task_at(self.program(), usize::from(task)) {
            Some(found) => found,
            None => unreachable!(),
        }
    }

    /// The statements of the task of a number; none where no task has it. A message in them has at
    /// most four words.
    pub fn task_body(&self, task: u16) -> &[Stmt]
        ensures body { result.now ≡ statements_of (slice_get (tasks self.now) task) }
        ensures messages { IsTrue (statements_give result.now) }
    {
        match task_at(self.program(), usize::from(task)) {
            Some(found) => found.body.as_slice(),
            None => &[],
        }
    }

    /// The event of a number.
    pub fn event(&self, event: u16) -> &Event
        requires { event < length self.now.events }
        ensures { slice_get self.now.events event ≡ Some result.now }
    {
        &self.program().events.as_slice()[usize::from(event)]
    }

    /// The number of the event of this name; none where no event has the name.
    pub fn event_of(&self, name: &NameText) -> Option<u16>
        ensures event { result ≡ event_of self.now name.now }
        ensures within { IfSome result (λ event. event < length self.now.events) }
    {
        self.event_named(name.as_slice())
    }

    /// The number of the event whose name these bytes are; none where no event has the name.
    pub fn event_named(&self, name: &[u8]) -> Option<u16>
        ensures event { result ≡ event_of self.now name.now }
        ensures within { IfSome result (λ event. event < length self.now.events) }
    {
        let program = self.program();
        lookups::event_named(program.events.as_slice(), name)
    }

    /// The number of a task's transaction; none where the task is lone or isn't there.
    pub fn tx_of_task(&self, task: u16) -> Option<u16>
        ensures tx { result ≡ transaction_of self.now task }
        ensures within { IfSome result (λ tx. tx < length (transactions self.now)) }
    {
        let program = self.program();
        lookups::tx_of_task(program.units.as_slice(), task)
    }

    /// The first task of a transaction.
    pub fn first_of_tx(&self, tx: u16) -> u16
        requires { tx < length (transactions self.now) }
        ensures first { first_task self.now tx ≡ Some result }
        ensures within { result < length (tasks self.now) }
    {
        let program = self.program();
        lookups::first_of_tx(program.units.as_slice(), tx)
    }

    /// What a variable word holds at first.
    pub fn opening(&self, word: u16) -> u16
        requires { word < word_count self.now.vars }
        ensures { slice_get (opening_values self.now) word ≡ Some result }
    {
        let program = self.program();
        lookups::opening(program.vars.as_slice(), word)
    }
}
