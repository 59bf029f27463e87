//! A device: its memory, what a cut of power takes, and the observer's record; what its steps do,
//! and what they keep. No step is made here.
#![tactic(auto)]

mod cursor;
mod device;
mod hand;
pub mod laws;
pub mod raise_laws;
mod readings;
mod scratch;
mod waiting;

pub use cursor::Cursor;
pub use device::{Device, Phase};
pub use hand::Hand;
pub use readings::Readings;
pub use scratch::Scratch;
pub use waiting::Waiting;
