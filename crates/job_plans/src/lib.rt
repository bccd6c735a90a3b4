//! The plans of groups and jobs: adding, setting, updating, starting, stopping and removing them.
#![tactic(auto)]

mod changes;
pub mod edits;
pub mod groups;
mod ids;
pub mod jobs;

pub use edits::{plan_start_job, plan_update_job};
pub use groups::{plan_add_group, plan_set_group};
pub use jobs::{plan_add_job, plan_remove_job, plan_stop_job};
