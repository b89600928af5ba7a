//! The execution control of one AS-i master: its state, the calls of the controller, and the cycle, request by request or whole on a line.
#![tactic(auto)]

pub mod control;
pub mod cycle;
pub mod engine;
mod turn;
