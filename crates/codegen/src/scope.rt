ghost use Rattle.std.specs.Prelude.{◌≡◌, ◌<◌, IfOk, OnOk, map};
ghost use Rattle.codegen.specs.Located.{local_of};
ghost use Rattle.codegen.specs.Scope.{behind_block, declare, no_scope, slot_of};

use coati_word::OutOfMemory;
use std::alloc::Global;
use std::marker::Model;
use task_syntax::Name;

/// A local with its slot.
#[derive(Clone, Copy, Debug)]
struct Local<'a> {
    name: &'a [u8],
    slot: u16,
}

/// The locals in scope, and the slot of the next declaration.
#[derive(Debug, Drop)]
pub(crate) struct Scope<'a> {
    // The latest first. There are at most 32.
    locals: Vec<Local<'a>>,
    next: u16,
}

impl<'a> Model for Scope<'a> {
    ghost use Rattle.std.specs.Prelude.{map};
    ghost use Rattle.codegen.specs.Scope.{Scope};
    ghost use Rattle.codegen.specs.Located.{local_of};

    ghost Value = { Scope };

    ghost view = { λ scope. record {
      locals = map local_of scope.locals.items;
      next = scope.next;
    } };
}

impl<'a> Scope<'a> {
    /// The scope before anything is declared.
    pub(crate) fn new(alloc: Global) -> Scope<'a>
        ensures { result ≡ no_scope }
    {
        Scope {
            locals: Vec::new(alloc),
            next: 0,
        }
    }

    /// The slot of the next declaration.
    pub(crate) fn next(&self) -> u16
        ensures { result ≡ self.now.next }
    {
        self.next
    }

    /// The slot of a name, where it is in scope.
    pub(crate) fn slot_of(&self, name: &Name) -> Option<u16>
        ensures { result ≡ slot_of self.now.locals name.now.text }
    {
        slot_among(&self.locals, name.text.as_slice())
    }

    /// Takes a name into scope.
    pub(crate) fn declare(&mut self, name: &'a Name) -> Result<(), OutOfMemory>
        requires { self.old.next < 65535 }
        ensures { OnOk result (self.new ≡ declare name.now.text self.old) }
    {
        let local = Local {
            name: name.text.as_slice(),
            slot: self.next,
        };
        self.locals.insert(0, local)?;
        self.next += 1;
        Ok(())
    }

    /// The same scope, for a block that stands in this one.
    pub(crate) fn within(&self, alloc: Global) -> Result<Scope<'a>, OutOfMemory>
        ensures { IfOk result (λ scope. scope ≡ self.now) }
    {
        let locals = Vec::from_slice(alloc, &self.locals)?;
        Ok(Scope {
            locals,
            next: self.next,
        })
    }

    /// Goes on behind a block, which led to the inner scope. The slots of the block are not used
    /// again.
    pub(crate) fn pass(&mut self, inner: Scope<'a>)
        ensures { self.new ≡ behind_block self.old inner.entry }
    {
        self.next = inner.next;
    }
}

/// The slot of the first of these locals that has the name.
fn slot_among(locals: &[Local], name: &[u8]) -> Option<u16>
    ensures { result ≡ slot_of (map local_of locals.now) name.now }
{
    for local in locals {
        if name == local.name {
            return Some(local.slot);
        }
    }
    None
}
