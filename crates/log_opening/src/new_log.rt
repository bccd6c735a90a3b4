//! One log that is to be opened.

use job_records::Job;
use job_values::{Moment, ParamText, Retries, ShardNo, TriggerKind};

/// One log that a firing of a job is to open: the job's row as it is now, and what the row does not say.
#[derive(Clone, Copy)]
pub struct NewLog<'a> {
    pub row: &'a Job,
    pub param: &'a ParamText,
    pub kind: TriggerKind,
    /// When it fires.
    pub time: Moment,
    /// The shard, and how many shards there are.
    pub index: ShardNo,
    pub total: ShardNo,
    /// How often the log may be tried again.
    pub retries: Retries,
}
