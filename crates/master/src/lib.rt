//! A master: the execution control with its two queues over the caller's slices. Every call of the controller is a method of it.
#![tactic(auto)]

pub mod calls;
pub mod cycle;
pub mod master;
pub mod projection;
pub mod underway;
