ghost use Rattle.std.specs.Prelude.{◌≡◌, ◌++◌, ◌<◌, IfOk, OnOk, length, option_and_then, slice_index};
ghost use Rattle.task_syntax.specs.Events.{event_course, event_effect};
ghost use Rattle.task_syntax.specs.Names.{first_values, opening_values, tasks, word_count};
ghost use Rattle.task_syntax.specs.Units.{first_task, task_course, tasks_effect, whole_effect};
ghost use Rattle.task_syntax.specs.Written.{is_written};
ghost use Rattle.task_check.specs.Counts.{transactions};
ghost use Rattle.serial_run.specs.Followed.{FollowsUnit};
ghost use Rattle.serial_run.specs.Moments.{Leaves, touching_from};
ghost use Rattle.serial_run.specs.Runs.{moment_of};
ghost use Rattle.serial_run.specs.Touched.{TellsShared, TellsWords};

use crate::body::run_task;
use crate::event_runs::run_halves;
use crate::follow::{Followed, follow_tasks};
use crate::run::Run;
use crate::unit::{ending_at, is_inside, run_tasks};
use crate::{Outcome, TxRun, Words};
use coati_word::{Ending, OutOfMemory, Reading};
use std::alloc::Global;
use std::marker::Model;
use task_check::Checked;
use task_syntax::{Init, Var};

/// What each variable word holds. A contract sees the list of the words.
#[derive(Debug, Drop)]
pub struct SerialStore {
    alloc: Global,
    words: Vec<u16>,
}

impl Model for SerialStore {
    ghost use Rattle.std.specs.Prelude.{ℕ, List};

    ghost Value = { List ℕ };

    ghost view = { λ store. store.words.items };
}

impl SerialStore {
    ghost use Rattle.serial_run.specs.Outcomes.{TellsCourse, TellsUnit};

    /// What the variables of a program hold at first.
    pub fn opening(alloc: Global, checked: &Checked) -> Result<SerialStore, OutOfMemory>
        ensures values { IfOk result (λ store. store ≡ opening_values checked.now) }
        ensures words { IfOk result (λ store. length store ≡ word_count checked.now.vars) }
    {
        let mut words = Vec::new(alloc);
        for var in checked.program().vars.as_slice() {
            append_first(&mut words, var)?;
        }
        Ok(SerialStore { alloc, words })
    }

    /// What a word holds.
    pub fn get(&self, word: u16) -> u16
        requires { word < length self.now }
        ensures { result ≡ slice_index self.now word }
    {
        self.words[word as usize]
    }

    /// Runs a task.
    pub fn run_task(
        self,
        checked: &Checked,
        task: u16,
    ) -> Result<(SerialStore, Outcome), OutOfMemory>
        requires words { length self ≡ word_count checked.now.vars }
        requires task { task < length (tasks checked.now) }
        ensures { IfOk result (λ ran. TellsCourse self (task_course checked.now task) ran.0
            ran.1) }
    {
        self.ran(checked, task)
    }

    /// Runs a task. One that isn't there does nothing and ends.
    pub(crate) fn ran(
        self,
        checked: &Checked,
        task: u16,
    ) -> Result<(SerialStore, Outcome), OutOfMemory>
        requires { length self ≡ word_count checked.now.vars }
        ensures { IfOk result (λ ran. TellsCourse self (task_course checked.now task) ran.0
            ran.1) }
    {
        let SerialStore { alloc, words } = self;
        let mut run = Run::reading(alloc, words);
        let ending = run_task(alloc, checked, &mut run, task)?;
        Ok(told(alloc, run, ending))
    }

    /// Runs so many tasks of a transaction from its first one on. They make it whole where the
    /// last of them halts or leads outside, and none before did.
    pub fn run_tx(self, checked: &Checked, tx: u16, count: u32) -> Result<TxRun, OutOfMemory>
        requires words { length self ≡ word_count checked.now.vars }
        requires tx { tx < length (transactions checked.now) }
        ensures { IfOk result (TellsUnit self
            (option_and_then (λ first. whole_effect checked.now first (slice_index self) count)
            (first_task checked.now tx))) }
    {
        let first = checked.first_of_tx(tx);
        let SerialStore { alloc, words } = self;
        let mut run = Run::reading(alloc, words);
        match run_tasks(alloc, checked, &mut run, first, count)? {
            Some(place) if !is_inside(checked, first, place) => {
                let (store, outcome) = told(alloc, run, ending_at(place));
                Ok(TxRun::Whole(store, outcome))
            }
            _ => Ok(TxRun::Other),
        }
    }

    /// Runs so many tasks of a transaction from its first one on, where they make it whole and
    /// read exactly this. No more of them run than the readings ask for: none behind a task that
    /// reads anything else, nor where tasks go round without a reading.
    pub fn follow_tx(
        self,
        checked: &Checked,
        tx: u16,
        count: u32,
        reads: &[Reading],
    ) -> Result<Option<Followed>, OutOfMemory>
        requires words { length self ≡ word_count checked.now.vars }
        requires tx { tx < length (transactions checked.now) }
        ensures { IfOk result (FollowsUnit self
            (option_and_then (λ first. whole_effect checked.now first (slice_index self) count)
            (first_task checked.now tx)) reads.now) }
    {
        follow_tasks(self, checked, checked.first_of_tx(tx), count, reads)
    }

    /// Runs an event on an argument: its top half, which sees no variable, and its bottom half on
    /// what the top half gave.
    pub fn run_event(
        self,
        checked: &Checked,
        event: u16,
        argument: u16,
    ) -> Result<(SerialStore, Outcome), OutOfMemory>
        requires words { length self ≡ word_count checked.now.vars }
        requires event { event < length checked.now.events }
        ensures { IfOk result (λ ran.
            TellsCourse self (event_course checked.now event argument) ran.0 ran.1) }
    {
        let SerialStore { alloc, words } = self;
        let mut run = Run::reading(alloc, words);
        let ending = run_halves(alloc, checked, &mut run, event, argument)?;
        Ok(told(alloc, run, ending))
    }

    /// The words that so many tasks of a unit, the first being `task`, read when none of them has
    /// written them before. None where the unit ends before so many tasks.
    pub fn shared_reads(
        &self,
        checked: &Checked,
        task: u16,
        count: u32,
    ) -> Result<Option<Words>, OutOfMemory>
        requires words { length self.now ≡ word_count checked.now.vars }
        requires task { task < length (tasks checked.now) }
        ensures { IfOk result (TellsShared
            (tasks_effect checked.now task (slice_index self.now) count)) }
    {
        let mut run = self.touching()?;
        match run_tasks(self.alloc, checked, &mut run, task, count)? {
            None => Ok(None),
            Some(_) => {
                let words = Words::marked(self.alloc, run.shared(), checked.words())?;
                Ok(Some(words))
            }
        }
    }

    /// The words that an event writes on an argument.
    pub fn event_writes(
        &self,
        checked: &Checked,
        event: u16,
        argument: u16,
    ) -> Result<Words, OutOfMemory>
        requires words { length self.now ≡ word_count checked.now.vars }
        requires event { event < length checked.now.events }
        ensures { IfOk result (TellsWords
            (is_written (event_effect checked.now event argument (slice_index self.now)))) }
    {
        let mut run = self.touching()?;
        run_halves(self.alloc, checked, &mut run, event, argument)?;
        Words::marked(self.alloc, run.written(), checked.words())
    }

    /// A run on a copy of the words, of which it is kept which words are touched.
    fn touching(&self) -> Result<Run, OutOfMemory>
        ensures { IfOk result (λ run. moment_of run ≡ touching_from self.now) }
    {
        Run::touching(self.alloc, self.words.clone()?)
    }
}

/// The store that a run has come to, and its outcome.
fn told(alloc: Global, run: Run, ending: Ending) -> (SerialStore, Outcome)
    ensures left { Leaves (moment_of run) result.0 result.1.readings }
    ensures ending { result.1.ending ≡ ending }
{
    let (words, readings) = run.into_readings(alloc);
    (SerialStore { alloc, words }, Outcome { readings, ending })
}

/// Appends what the words of a variable hold at first: the values that are given, and 0 behind
/// them.
fn append_first(words: &mut Vec<u16>, var: &Var) -> Result<(), OutOfMemory>
    ensures { OnOk result (words.new.items ≡ words.old.items ++ first_values var.now) }
{
    let given = match &var.init {
        Init::None => &[],
        Init::One(value) => std::slice::from_ref(value),
        Init::Many(values) => values.as_slice(),
    };
    words.extend_from_slice(given)?;
    for _ in given.len()..usize::from(var.length.unwrap_or(1)) {
        words.push(0)?;
    }
    Ok(())
}
