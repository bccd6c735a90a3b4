//! The lane of a job on an executor: the runs that wait in it, and those that are on runners.
#![tactic(auto)]

pub mod lane;
pub mod laws;
pub mod runs;
#[cfg(test)]
mod tests;

pub use lane::Lane;
pub use runs::{QueuedRun, RunnerRun};
