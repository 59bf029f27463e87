ghost use Rattle.std.specs.Prelude.{◌≡◌, [], OnOk, length, take};
ghost use Rattle.task_check.specs.Scope.{meaning_of, with_name};

use crate::meaning::Meaning;
use coati_word::OutOfMemory;
use indexmap::IndexMap;
use std::alloc::Global;
use std::marker::Model;
use task_syntax::NameText;

/// The names in scope, each with what it stands for, in the order of declaration.
#[derive(Drop)]
pub(crate) struct Scope<'a> {
    names: IndexMap<&'a [u8], Meaning>,
}

impl<'a> Model for Scope<'a> {
    ghost use Rattle.std.specs.Prelude.{ℕ, List, map};
    ghost use Rattle.task_check.specs.declared.meaning.Meaning.{Meaning};

    ghost Value = { List (List ℕ × Meaning) };

    ghost view = { λ scope. map (λ name. (name.0.now, name.1)) scope.names.entries };
}

impl<'a> Scope<'a> {
    pub(crate) fn new(alloc: Global) -> Scope<'a>
        ensures { result ≡ [] }
    {
        Scope {
            names: IndexMap::new(alloc),
        }
    }

    pub(crate) fn len(&self) -> usize
        ensures { result ≡ length self.now }
    {
        self.names.len()
    }

    /// What the name stands for, where it is in scope.
    pub(crate) fn meaning_of(&self, name: &NameText) -> Option<Meaning>
        ensures { result ≡ meaning_of self.now name.now }
    {
        self.names.get(name.as_slice()).copied()
    }

    /// Takes the name into scope, unless it is in scope already.
    pub(crate) fn declare(
        &mut self,
        name: &'a NameText,
        meaning: Meaning,
    ) -> Result<(), OutOfMemory>
        ensures { OnOk result (self.new ≡ with_name self.old name.now meaning) }
    {
        if self.meaning_of(name).is_some() {
            return Ok(());
        }
        if self.names.insert(name.as_slice(), meaning).is_err() {
            return Err(OutOfMemory);
        }
        Ok(())
    }

    /// Takes all names but the first out of scope.
    pub(crate) fn truncate(&mut self, count: usize)
        ensures { self.new ≡ take count self.old }
    {
        self.names.truncate(count);
    }
}
