//! The words of Coati, their operators, and what every other crate shares.
#![tactic(auto)]

mod ending;
pub mod laws;
pub mod limits;
mod memory;
mod message;
mod mode;
mod operator;
mod reading;

pub use ending::Ending;
pub use memory::OutOfMemory;
pub use message::Message;
pub use mode::Mode;
pub use operator::{Op, Op1, apply, apply1};
pub use reading::Reading;

#[cfg(test)]
mod tests;
