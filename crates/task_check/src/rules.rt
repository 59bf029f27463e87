//! The rules on bodies: their turns in rule 4, and rules 8 to 16 on their shapes and measures.
//! They take no memory.

mod bodies;
mod body;
mod body_rule;
mod endings;
mod gives;
mod loops;
mod measures;
mod reading;
mod tops;
mod transitions;
mod turns;

pub(crate) use bodies::least_in_bodies;
pub(crate) use body_rule::BodyRule;
pub(crate) use reading::{endings_and_shapes, measures};
pub(crate) use transitions::{count_with, own_number};
