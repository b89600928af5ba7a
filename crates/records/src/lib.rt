//! The master's record: mode, lists, and for each address the detected and projected codes, parameters, data and misses.
#![tactic(auto)]

pub mod edit;
pub mod entry;
pub mod projection;
pub mod record;
pub mod rows;
