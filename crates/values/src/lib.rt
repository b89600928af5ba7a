//! Numbers that cannot leave their range, and the refusals of the whole product with their numbers.
#![tactic(auto)]

pub mod address;
pub mod module_address;
pub mod nibble;
pub mod refusal;
pub mod up_to;
