//! The bodies of programs on the word machine, over two views of the variable words; and, as
//! tests, those of worked programs beside the plain evaluator.
#![tactic(auto)]

mod compiled;
mod machine;
mod noted_words;
mod plain_words;

pub use compiled::Compiled;
pub use machine::Ran;
pub use noted_words::NotedWords;
pub use plain_words::PlainWords;

#[cfg(test)]
mod tests;
