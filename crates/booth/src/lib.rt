//! The booth: a board with the totals of what its devices were told and of what its executor did.
//! Each device and the executor have a seat, whose shares of the totals are what they know.
#![tactic(auto)]

mod answers;
mod beat;
mod booth;
mod names;
mod seats;

pub use beat::Beat;
pub use booth::{Blanks, Booth};
pub use names::Names;
pub use seats::{Seat, TurnSeat};
