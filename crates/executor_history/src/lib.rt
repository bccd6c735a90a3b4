//! Histories of an executor: what their entries say of runs, results, held ids and lines, and the reply of each event.
#![tactic(auto)]

pub mod laws;
pub mod records;

pub use records::{Queued, Working};
