//! Decimals and lines of texts.
#![tactic(auto)]

mod cursor;
mod laws;
mod line_walk;
mod printed;
mod split;

pub use cursor::{Cursor, NumFault};
pub use laws::{each_number_has_one_decimal, lines_are_the_text};
pub use line_walk::Lines;
pub use printed::put_decimal;
pub use split::lines;

#[cfg(test)]
mod tests;
