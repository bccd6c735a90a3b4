//! The plans of registrations: the beat of an executor, its removal, and the sweep of the dead ones.
#![tactic(auto)]

pub mod calls;
pub mod sweeps;

pub use calls::{plan_registry, plan_registry_remove};
pub use sweeps::plan_sweep;
