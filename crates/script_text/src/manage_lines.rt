//! The lines that a management request may hold.

use job_values::{Addresses, AppName, GroupId, GroupKind, JobId, JobSpec, LogId, ParamText};

/// What a management request asks of the node that it reaches. The moment is the clock's in that
/// request, and the admin is the node's.
#[derive(Drop)]
pub enum ManageLine {
    /// A group is added.
    AddGroup(AppName, GroupKind, Addresses),
    /// A group gets another kind and other addresses.
    SetGroup(GroupId, GroupKind, Addresses),
    /// A job is added; it is stopped.
    AddJob(JobSpec),
    /// A job gets another spec; it runs on where it ran.
    UpdateJob(JobId, JobSpec),
    /// A job is started.
    StartJob(JobId),
    /// A job is stopped.
    StopJob(JobId),
    /// A job is removed; its logs stay.
    RemoveJob(JobId),
    /// A job is fired by hand, with this parameter or its own.
    TriggerJob(JobId, Option<ParamText>),
    /// What is known of a log.
    ReadLog(LogId),
    /// Every admin stops, one after another.
    Shutdown,
}
