//! The plans of logs that are taken from the pools of an admin, each with where it may be sent, and of
//! logs that were sent.
#![tactic(auto)]

mod choices;
pub mod sendings;
pub mod takes;

pub use sendings::plan_sent;
pub use takes::plan_take;
