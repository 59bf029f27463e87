//! The compiler: the code of each body of a program, and its listing.
#![tactic(auto)]

mod access;
mod compiler;
mod emitter;
mod expression;
mod jumps;
pub mod laws;
mod line;
mod lister;
pub mod listing_laws;
mod scope;
mod segment;
mod statement;

pub use compiler::compile;
pub use lister::listing;
