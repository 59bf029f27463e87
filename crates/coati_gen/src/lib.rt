//! Realistic inputs of any size: a source with a trace.
#![tactic(auto)]

mod fault;
mod laws;
mod rounds;
mod text;

pub use fault::GenFault;
pub use laws::generated_inputs_are_small;
pub use rounds::generate;

#[cfg(test)]
mod tests;
