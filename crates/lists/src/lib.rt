//! Lists of addresses as words of 32 bits: bit a is one where address a is in the list.
#![tactic(auto)]

pub mod member;
pub mod pair;
