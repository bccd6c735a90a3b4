//! The rows that the admins share: jobs, groups, logs and registrations, each list in order of its
//! ids, how a row is found by its id, and the indexes that are kept with them.
#![tactic(auto)]

mod allow;
mod apply;
pub mod change;
mod drop_batches;
mod drops;
pub mod group;
pub mod job;
mod job_rows;
mod keys;
pub mod last_ids;
pub mod laws;
pub mod log;
mod log_rows;
pub mod records;
pub mod registry;
mod registry_batches;
mod registry_edits;
mod room;

pub use change::Change;
pub use group::Group;
pub use job::Job;
pub use last_ids::LastIds;
pub use log::Log;
pub use records::Records;
pub use registry::RegistryRow;
