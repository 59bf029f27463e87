//! The plain evaluator: what tasks, transactions and events do, one after another and each whole,
//! with no cut of power.
#![tactic(auto)]

mod body;
mod event_runs;
mod expression;
mod follow;
mod kept;
mod locals;
mod outcome;
mod readings;
mod run;
mod statement;
mod store;
mod target;
mod unit;
mod words;

pub use follow::Followed;
pub use outcome::{Outcome, TxRun};
pub use readings::Readings;
pub use store::SerialStore;
pub use words::Words;
