//! The port of a scheduling centre to what keeps its records, and a keeper in memory.
#![tactic(auto)]

pub mod keeper;
mod memory;

pub use keeper::{KeepError, Keeper, Loaded};
pub use memory::MemoryKeeper;
