//! The instructions of the word machine: their words, what they do, and the code of a program.
#![tactic(auto)]

mod code;
mod decoding;
mod encoding;
mod instruction;
pub mod laws;

pub use code::Code;
pub use decoding::decode;
pub use encoding::encode;
pub use instruction::Instr;

#[cfg(test)]
mod tests;
