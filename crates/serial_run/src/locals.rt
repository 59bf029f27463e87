ghost use Rattle.std.specs.Prelude.{◌≡◌, ◌<◌, [], ◌∷◌, ◌++◌, length, IfSome, OnOk};
ghost use Rattle.task_syntax.specs.Expressions.{no_locals, with_local};
ghost use Rattle.serial_run.specs.Locals.{locals_of, place_from};

use coati_word::OutOfMemory;
use std::alloc::Global;
use task_syntax::NameText;

/// A local and what it stands for.
#[derive(Clone, Copy, Drop)]
pub(crate) struct Local<'a> {
    name: &'a NameText,
    value: u16,
}

/// The locals of a body. Each name stands here once; those that aren't here stand for 0.
#[derive(Drop)]
pub(crate) struct Locals<'a> {
    named: Vec<Local<'a>>,
}

impl<'a> Locals<'a> {
    /// No locals.
    pub(crate) fn new(alloc: Global) -> Locals<'a>
        ensures { locals_of result ≡ no_locals }
    {
        Locals {
            named: Vec::new(alloc),
        }
    }

    /// What a name stands for.
    pub(crate) fn get(&self, name: &NameText) -> u16
        ensures { result ≡ locals_of self.now name.now }
    {
        for local in self.named.as_slice() {
            if *name == *local.name {
                return local.value;
            }
        }
        0
    }

    /// Lets a name stand for a value.
    pub(crate) fn set(&mut self, name: &'a NameText, value: u16) -> Result<(), OutOfMemory>
        ensures { OnOk result (locals_of self.new
            ≡ with_local name.now value (locals_of self.old)) }
    {
        match place_of(self.named.as_slice(), name) {
            Some(at) => {
                self.named[at].value = value;
                Ok(())
            }
            None => self.push(Local { name, value }),
        }
    }

    fn push(&mut self, local: Local<'a>) -> Result<(), OutOfMemory>
        ensures { OnOk result (self.new.named.items ≡ self.old.named.items ++ local.entry ∷ []) }
    {
        Ok(self.named.push(local)?)
    }
}

/// The place of a name among locals.
fn place_of(locals: &[Local], name: &NameText) -> Option<usize>
    ensures place { result ≡ place_from 0 locals.now name.now }
    ensures within { IfSome result (λ at. at < length locals.now) }
{
    for (at, local) in locals.iter().enumerate() {
        if *name == *local.name {
            return Some(at);
        }
    }
    None
}
