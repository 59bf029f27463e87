//! The pace of a device: what the bound on progress reads of it, and that its steps keep pace.
#![tactic(auto)]

mod commits;
mod counts;
mod effort;
mod headers;
pub mod laws;
mod merges;
mod stage;
mod steps;
mod undos;

pub use effort::effort_of;
pub use steps::need;
