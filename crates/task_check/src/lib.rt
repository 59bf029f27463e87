//! The sixteen rules of a program, and programs that keep them all.
#![tactic(auto)]

mod checked;
mod checking;
mod counts;
mod fault;
mod found;
pub mod laws;
mod least;
mod lookups;
mod meaning;
mod names;
mod role;
mod rule;
mod rules;
mod scope;
mod walk;
mod within;

pub use checked::Checked;
pub use checking::check;
pub use fault::CheckFault;
pub use rule::Rule;
