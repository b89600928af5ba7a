//! A queue over the caller's slice, of elements of any kind that can be copied.
#![tactic(auto)]

pub mod queue;
