//! That what a program reads and writes are words of 16 bits.
#![tactic(auto)]

pub mod laws;
