//! The controller's orders, their answers, the two queues of them, and what the reply to an order makes of the row.
#![tactic(auto)]

pub mod management;
pub mod order;
pub mod pair;
