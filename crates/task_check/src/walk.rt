ghost use Rattle.std.specs.Prelude.{◌≡◌, [], ◌∷◌, OnOk, map, Option};
ghost use Rattle.task_check.specs.declared.meaning.Meaning.TheVariants as meaning;
ghost use Rattle.task_check.specs.Mentions.{declares, mention, uses, within, chain, in_turn, expression_mentions, expressions_mentions, place_mentions, statement_part, statements_part};

use crate::found::Found;
use crate::meaning::Meaning;
use crate::role::Role;
use crate::scope::Scope;
use coati_word::OutOfMemory;
use std::alloc::Global;
use task_syntax::{Expr, Name, Place, Stmt};

/// A walk over a program, with the names in scope and what it has found.
#[derive(Drop)]
pub(crate) struct Walk<'a> {
    pub(crate) scope: Scope<'a>,
    pub(crate) found: Found,
}

impl<'a> Walk<'a> {
    ghost use Rattle.task_check.specs.Found.{found_among};
    ghost use Rattle.task_check.specs.Walk.{behind};

    pub(crate) fn new(alloc: Global) -> Walk<'a>
        ensures { result ≡ record { scope = []; found = found_among [] } }
    {
        Walk {
            scope: Scope::new(alloc),
            found: Found::nothing(),
        }
    }

    #[tactic(auto, unfolding(crate::specs::Walk::behind))]
    fn note(&mut self, name: &Name, role: Role)
        ensures { self.new ≡ behind (uses (λ scope. mention role name.now scope ∷ [])) self.old }
    {
        let meaning = self.scope.meaning_of(&name.text);
        self.found.note(name, role, meaning);
    }

    #[tactic(auto, unfolding(crate::specs::Walk::behind))]
    pub(crate) fn declare(&mut self, name: &'a Name, meaning: Meaning) -> Result<(), OutOfMemory>
        ensures { OnOk result (self.new ≡ behind (declares meaning name.now) self.old) }
    {
        self.note(name, Role::Declared);
        self.scope.declare(&name.text, meaning)
    }

    #[cycle(expression)]
    #[tactic(auto, using(crate::proofs::Walking::walking))]
    fn expression(&mut self, value: &Expr)
        ensures { self.new ≡ behind (uses (expression_mentions value.now)) self.old }
    {
        match value {
            Expr::Num(_) => {}
            Expr::Get(place) => self.place(place),
            Expr::One(_, operand) => self.expression(operand.get()),
            Expr::Two(_, left, right) => {
                self.expression(left.get());
                self.expression(right.get());
            }
        }
    }

    #[cycle(expression)]
    #[tactic(auto, using(crate::proofs::Walking::walking))]
    fn place(&mut self, place: &Place)
        ensures { self.new ≡ behind (uses (place_mentions place.now)) self.old }
    {
        match place {
            Place::Plain(name) => self.note(name, Role::Plain),
            Place::Item(name, index) => {
                self.note(name, Role::Item);
                self.expression(index.get());
            }
        }
    }

    #[tactic(auto, using(crate::proofs::Walking::walking))]
    fn expressions(&mut self, values: &[Expr])
        ensures { self.new ≡ behind (uses (expressions_mentions values.now)) self.old }
    {
        for value in values {
            self.expression(value);
        }
    }

    #[cycle(statement)]
    #[tactic(auto, using(crate::proofs::Walking::walking))]
    fn statement(&mut self, statement: &'a Stmt) -> Result<(), OutOfMemory>
        ensures { OnOk result (self.new ≡ behind (statement_part statement.now) self.old) }
    {
        match statement {
            Stmt::Let(name, value) => {
                self.expression(value);
                self.declare(name, Meaning::Local)?;
            }
            Stmt::Assign(place, value) => {
                self.place(place);
                self.expression(value);
            }
            Stmt::If(condition, block, other) => {
                self.expression(condition);
                self.block(block.as_slice())?;
                if let Some(other) = other {
                    self.block(other.as_slice())?;
                }
            }
            Stmt::Repeat(name, _, block) => self.block_with(name, block.as_slice())?,
            Stmt::Next(name) => self.note(name, Role::Next),
            Stmt::Halt(_) => {}
            Stmt::Give(values, _) => self.expressions(values.as_slice()),
        }
        Ok(())
    }

    /// A block with a local of its own, as a loop's name.
    #[cycle(statement)]
    #[tactic(auto, using(crate::proofs::Walking::walking))]
    pub(crate) fn block_with(
        &mut self,
        name: &'a Name,
        block: &'a [Stmt],
    ) -> Result<(), OutOfMemory>
        ensures { OnOk result (self.new
            ≡ behind (within (chain (declares meaning.Local name.now) (statements_part block.now)))
            self.old) }
    {
        let outside = self.scope.len();
        self.declare(name, Meaning::Local)?;
        self.statements(block)?;
        self.scope.truncate(outside);
        Ok(())
    }

    #[cycle(statement)]
    #[tactic(auto, using(crate::proofs::Walking::walking))]
    pub(crate) fn block(&mut self, block: &'a [Stmt]) -> Result<(), OutOfMemory>
        ensures { OnOk result (self.new ≡ behind (within (statements_part block.now)) self.old) }
    {
        let outside = self.scope.len();
        self.statements(block)?;
        self.scope.truncate(outside);
        Ok(())
    }

    #[cycle(statement)]
    #[tactic(auto, using(crate::proofs::Walking::walking))]
    pub(crate) fn statements(&mut self, block: &'a [Stmt]) -> Result<(), OutOfMemory>
        ensures { OnOk result (self.new ≡ behind (statements_part block.now) self.old) }
    {
        for statement in block {
            self.statement(statement)?;
        }
        Ok(())
    }
}
