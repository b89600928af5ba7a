//! What stands at the stations of a line, what a request does there, and the image words that say it.
#![tactic(auto)]

pub mod bytes;
pub mod image;
pub mod station;
pub mod step;
