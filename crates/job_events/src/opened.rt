//! The logs that firings open.

use job_values::{Edition, JobId, LogId, Moment, PoolAnswer, Seq};

/// A log that a firing opened, and the pool that it was put in.
#[derive(Clone, Copy, PartialEq, Eq)]
pub struct Opened {
    pub log: LogId,
    pub pool: PoolAnswer,
}

/// A ticket that a turn took, and the logs that it opened.
#[derive(Drop)]
pub struct FiredTicket {
    pub job: JobId,
    pub edition: Edition,
    pub due: Moment,
    pub opened: Seq<Opened>,
}

/// A child that a result fired, and the logs that it opened.
#[derive(Drop)]
pub struct FiredChild {
    pub job: JobId,
    pub opened: Seq<Opened>,
}
