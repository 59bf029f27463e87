//! The tokens of a source.
#![tactic(auto)]

mod byte;
mod fault;
mod front;
mod keyword;
mod laws;
mod scanner;
mod symbol;
mod token;

pub use fault::LexFault;
pub use keyword::Keyword;
pub use laws::{each_source_has_one_answer, tokens_stand_in_their_source};
pub use scanner::lex;
pub use symbol::Symbol;
pub use token::{Token, TokenKind};

#[cfg(test)]
mod tests;
