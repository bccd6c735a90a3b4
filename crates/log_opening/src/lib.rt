//! Opening logs: one log, a firing with all its shards, firings one after another, and what a plan
//! changes by them.
#![tactic(auto)]

pub mod firing;
pub mod new_log;
pub mod opening;
pub mod rows;
pub mod series;

pub use firing::{Fired, fire_job, fire_log, nothing_fired};
pub use new_log::NewLog;
pub use opening::{Openings, open_log, open_logs, opened_changes, shard_count};
pub use rows::push_row;
pub use series::open_job;
