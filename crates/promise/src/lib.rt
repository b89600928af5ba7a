//! What is promised of every succession of calls, and the one number in it.
#![tactic(auto)]

pub mod figure;
