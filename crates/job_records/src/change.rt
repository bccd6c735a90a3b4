//! A change of the rows.

use super::group::Group;
use super::job::Job;
use super::last_ids::LastIds;
use super::log::Log;
use super::registry::RegistryRow;
use job_values::{JobId, LogId, RegistryText};

/// One change of the rows. A row that is put takes the place of the one with its id, if there is
/// one; a registration is known by its key and its value.
#[derive(Drop)]
pub enum Change {
    PutGroup(Group),
    PutJob(Job),
    DropJob(JobId),
    PutLog(Log),
    DropLog(LogId),
    PutRegistry(RegistryRow),
    DropRegistry {
        key: RegistryText,
        value: RegistryText,
    },
    LastIds(LastIds),
}
