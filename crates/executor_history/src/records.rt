//! The runs of an executor over all its lanes.

use job_lane::{QueuedRun, RunnerRun};
use job_values::JobId;

/// A run that waits in the lane of its job.
#[derive(Drop)]
pub struct Queued {
    pub job: JobId,
    pub run: QueuedRun,
}

/// A run that is on a runner.
#[derive(Clone, Copy)]
pub struct Working {
    pub job: JobId,
    /// Its place in order of acceptance.
    pub number: u64,
    pub run: RunnerRun,
}
