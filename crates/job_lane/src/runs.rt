//! The runs of a lane, as they wait and as they are on runners.

use job_values::{HandlerName, LogId, LogMoment, Moment, RunParam, RunnerNo, ShardNo, Timeout};

/// A run that waits.
#[derive(Drop)]
pub struct QueuedRun {
    /// Its place in order of acceptance.
    pub number: u64,
    pub log: LogId,
    pub log_moment: LogMoment,
    pub handler: HandlerName,
    pub param: RunParam,
    pub index: ShardNo,
    pub total: ShardNo,
    /// In seconds; 0 is none.
    pub timeout: Timeout,
}

/// A run that is on a runner.
#[derive(Clone, Copy)]
pub struct RunnerRun {
    pub runner: RunnerNo,
    pub log: LogId,
    pub log_moment: LogMoment,
    /// When it was given to the runner.
    pub start: Moment,
    /// In seconds; 0 is none.
    pub timeout: Timeout,
    /// Whether a kill or a cover ended it.
    pub ended: bool,
    /// Whether it has its result.
    pub given: bool,
}
