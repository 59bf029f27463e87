//! The board: a device that runs the tasks of a program over nonvolatile memory, one word a step,
//! and commits each as a whole, whenever its power is cut.
#![tactic(auto)]

mod board;
mod bottom_rows;
mod bottom_view;
mod commit;
mod cursors;
mod drain_rows;
mod handler;
mod handler_view;
mod phases;
mod raise;
mod rows;
mod step;
mod task_view;
mod tick;
mod units;
mod writes;

pub use board::Board;
