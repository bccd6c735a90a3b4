//! What a look at a due time finds and does: the table of scans.
#![tactic(auto)]

pub mod decision;
pub mod laws;

pub use decision::{Decision, decide};
