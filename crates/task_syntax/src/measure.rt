//! The measures of a body. They stand still at the greatest u32 and take no memory.

mod code_size;
mod machine_steps;
mod operands;
mod slots;

pub use code_size::code_words;
pub use machine_steps::cost;
pub use operands::depth;
pub use slots::locals;
