//! The word machine: it runs the code of a body on a view of the variable words, one machine step
//! a call.
#![tactic(auto)]

mod cpu;
pub mod laws;
mod locals;
mod operands;
mod turn;
mod view;

pub use cpu::Cpu;
pub use turn::Turn;
pub use view::View;
