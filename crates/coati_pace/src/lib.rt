//! How soon a device goes on: a bound on the steps until the next task ends or nothing is left to
//! do, and how a history keeps pace with it.
#![tactic(auto)]

mod effort;
pub mod laws;
mod shapes;
mod steps;

pub use effort::{Effort, Place, Shape, Stage};
pub use shapes::shape_of;
pub use steps::need;
