ghost use Rattle.std.specs.Prelude.{◌≡◌};
ghost use Rattle.task_syntax.specs.Names.{tasks_of_unit};

use crate::{Name, Number, Stmt};
use sqlite_items::Items;
use std::slice;

/// A program: its nonvolatile variables, the size of its buffer where one is declared, its events,
/// and its tasks.
#[derive(Debug, Drop)]
pub struct Program {
    pub vars: Items<Var>,
    pub buffer: Option<Number>,
    pub events: Items<Event>,
    pub units: Items<UnitDecl>,
}

/// A variable: a scalar, or an array where it has a length.
#[derive(Debug, Drop)]
pub struct Var {
    pub name: Name,
    pub length: Option<u16>,
    pub init: Init,
}

/// What a variable holds at first. Words without a given value hold 0.
#[derive(Debug, Drop)]
pub enum Init {
    None,
    One(u16),
    Many(Items<u16>),
}

/// An event: the top half, which sees the posting's argument, and the bottom half, which sees what
/// the top half gives.
#[derive(Debug, Drop)]
pub struct Event {
    pub name: Name,
    pub argument: Name,
    pub top: Items<Stmt>,
    pub params: Items<Name>,
    pub bottom: Items<Stmt>,
}

/// What commits as a whole: a lone task, or a transaction.
#[derive(Debug, Drop)]
pub enum UnitDecl {
    Lone(TaskDecl),
    Tx(TxDecl),
}

impl UnitDecl {
    /// The tasks of the unit, in their order.
    pub fn tasks(&self) -> &[TaskDecl]
        ensures { result.now ≡ tasks_of_unit self.now }
    {
        match self {
            UnitDecl::Lone(task) => slice::from_ref(task),
            UnitDecl::Tx(tx) => tx.tasks.as_slice(),
        }
    }
}

/// A task.
#[derive(Debug, Drop)]
pub struct TaskDecl {
    pub name: Name,
    pub body: Items<Stmt>,
}

/// A transaction: its tasks, the first of which starts it.
#[derive(Debug, Drop)]
pub struct TxDecl {
    pub name: Name,
    pub tasks: Items<TaskDecl>,
}
