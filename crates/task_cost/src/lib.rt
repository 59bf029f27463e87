//! What the bodies of a program cost, and the bounds that follow.
#![tactic(auto)]

mod bodies;
mod bounding;
mod limits;
mod longest;

pub use bodies::body_cost;
pub use bounding::bounds;
pub use limits::Bounds;
