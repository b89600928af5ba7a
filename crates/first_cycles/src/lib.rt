//! The first cycles of a new master on the line that an image says, for the program that lists them.
#![tactic(auto)]

pub mod first_cycles;
