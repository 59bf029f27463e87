//! Devices and an executor, each in a thread of its own, over one board under one lock.
#![tactic(auto)]

mod desk;
mod finish;
mod gate;
mod live;

pub use desk::{Desk, Seats};
pub use gate::{Gate, OpenGate, Who};
pub use live::{live_board, run_live};
