//! What waits in the ring, and what a turn takes out of it.

use job_values::{Edition, JobId, Moment, Seq};

/// A promise that a job fires: the job, its edition when it was looked at, and the moment at which
/// it is due.
#[derive(Clone, Copy, PartialEq, Eq)]
pub struct Ticket {
    pub job: JobId,
    pub edition: Edition,
    pub due: Moment,
}

/// The tickets of the slot of a second, and of the slot of the second before.
#[derive(Drop)]
pub struct Taken {
    pub present: Seq<Ticket>,
    pub past: Seq<Ticket>,
}
