//! The program that tokens spell, by a descent along the grammar.
#![tactic(auto)]

mod block;
mod cursor;
mod declaration;
mod event;
mod expression;
mod fault;
mod laws;
mod operator;
mod program;
mod statement;
mod unit;

pub use fault::ParseFault;
pub use laws::{a_list_is_one_program, each_list_has_one_answer, operators_are_counted};
pub use program::parse;

#[cfg(test)]
mod tests;
