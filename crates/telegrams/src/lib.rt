//! Requests and replies on an AS-Interface line, and the words that carry them (EN 50295).
#![tactic(auto)]

pub mod request;
pub mod word;
