//! What the comparison with an independent implementation links: the library's calls by functions on numbers and slices.
#![tactic(auto)]

pub mod cycles;
mod logged;
mod on_line;
pub mod replay;
mod script;
pub mod words;
