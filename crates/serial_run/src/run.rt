use crate::Readings;
use crate::kept::Kept;
use coati_word::{OutOfMemory, Reading};
use std::alloc::Global;

/// A run under way: the words of its store, and what is kept of what it did.
#[derive(Drop)]
pub(crate) struct Run {
    pub(crate) words: Vec<u16>,
    pub(crate) kept: Kept,
    ghost shared_fit: { shared_count kept (vec_len words) ≡ vec_len words },
    ghost written_fit: { written_count kept (vec_len words) ≡ vec_len words },
}

ghost use Rattle.std.specs.Prelude.{◌≡◌, vec_len};
ghost use Rattle.serial_run.specs.Fits.{shared_count, written_count};

impl Run {
    ghost use Rattle.std.specs.Prelude.{◌<◌, ◌≤◌, IfOk, OnOk, length};
    ghost use Rattle.task_syntax.specs.Course.{Access};
    ghost use Rattle.serial_run.specs.Moments.{Leaves, behind_access, reading_from};
    ghost use Rattle.serial_run.specs.Moments.{shared_in, touching_from, written_in};
    ghost use Rattle.serial_run.specs.Runs.{marks_of, moment_of};

    /// A run on these words, of which the readings are kept.
    pub(crate) fn reading(alloc: Global, words: Vec<u16>) -> Run
        ensures { moment_of result ≡ reading_from words.items }
    {
        Run {
            words,
            kept: Kept::Readings(Vec::new(alloc)),
        }
    }

    /// A run on these words, of which it is kept which words are touched.
    pub(crate) fn touching(alloc: Global, words: Vec<u16>) -> Result<Run, OutOfMemory>
        ensures { IfOk result (λ run. moment_of run ≡ touching_from words.items) }
    {
        let shared = Vec::from_elem(alloc, false, words.len())?;
        let written = Vec::from_elem(alloc, false, words.len())?;
        Ok(Run {
            words,
            kept: Kept::Touches { shared, written },
        })
    }

    /// The words, and the readings that were kept.
    pub(crate) fn into_readings(self, alloc: Global) -> (Vec<u16>, Readings)
        ensures { Leaves (moment_of self) result.0.items result.1 }
    {
        let Run { words, kept } = self;
        let readings = match kept {
            Kept::Readings(readings) => readings,
            Kept::Touches { .. } => Vec::new(alloc),
        };
        (words, Readings::from_vec(readings))
    }

    /// The words that were read when nothing had written them before, as far as it was kept.
    pub(crate) fn shared(&self) -> &[bool]
        ensures marks { marks_of result.now ≡ shared_in (moment_of self.now).kept }
        ensures few { length result.now ≤ (moment_of self.now).count }
    {
        match &self.kept {
            Kept::Touches { shared, .. } => shared.as_slice(),
            Kept::Readings(_) => &[],
        }
    }

    /// The words that were written, as far as it was kept.
    pub(crate) fn written(&self) -> &[bool]
        ensures marks { marks_of result.now ≡ written_in (moment_of self.now).kept }
        ensures few { length result.now ≤ (moment_of self.now).count }
    {
        match &self.kept {
            Kept::Touches { written, .. } => written.as_slice(),
            Kept::Readings(_) => &[],
        }
    }

    /// Reads a word.
    pub(crate) fn load(&mut self, word: u16) -> Result<u16, OutOfMemory>
        requires { word < (moment_of self.old).count }
        ensures value { IfOk result (λ value. value ≡ (moment_of self.old).store word) }
        ensures count { OnOk result ((moment_of self.new).count ≡ (moment_of self.old).count) }
        ensures moment { let value = (moment_of self.old).store word in OnOk result
            (moment_of self.new ≡ behind_access (Access.read word value) (moment_of self.old)) }
    {
        let value = self.words[word as usize];
        match &mut self.kept {
            Kept::Readings(readings) => readings.push(Reading { word, value })?,
            Kept::Touches { shared, written } => {
                if !written[word as usize] {
                    shared[word as usize] = true;
                }
            }
        }
        Ok(value)
    }

    /// Writes a word.
    pub(crate) fn store(&mut self, word: u16, value: u16)
        requires { word < (moment_of self.old).count }
        ensures count { (moment_of self.new).count ≡ (moment_of self.old).count }
        ensures moment { moment_of self.new
            ≡ behind_access (Access.wrote word value) (moment_of self.old) }
    {
        self.words[word as usize] = value;
        if let Kept::Touches { written, .. } = &mut self.kept {
            written[word as usize] = true;
        }
    }
}
