//! The tree of a program.
#![tactic(auto)]

mod body;
mod expression;
pub mod laws;
mod measure;
mod name;
mod program;
mod statement;

pub use body::{BodyId, Kind};
pub use expression::{Expr, Place};
pub use measure::{code_words, cost, depth, locals};
pub use name::{Name, NameText, Number};
pub use program::{Event, Init, Program, TaskDecl, TxDecl, UnitDecl, Var};
pub use statement::Stmt;

#[cfg(test)]
mod tests;
