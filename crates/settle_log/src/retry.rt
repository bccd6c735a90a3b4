//! Failed logs that are tried again.
ghost use Rattle.std.specs.Prelude.{◌≡◌, IfOk};
ghost use Rattle.settle_log.specs.Results.{retry_of};

use job_records::{Log, Records};
use job_values::{JobId, NoMemory, ParamText, Retries, ShardNo, TriggerKind};
use std::alloc::Global;

/// One log that a job is to open, as far as the job's row does not say it.
#[derive(Drop)]
pub struct Firing {
    pub job: JobId,
    pub kind: TriggerKind,
    pub param: ParamText,
    /// How often the log may be tried again.
    pub retries: Retries,
    /// The shard, and how many shards there are.
    pub index: ShardNo,
    pub total: ShardNo,
}

/// What tries a log again, with its parameter and its shard; None exactly where it has no retry left
/// or its job is gone.
pub fn retry_of(alloc: Global, records: &Records, log: &Log) -> Result<Option<Firing>, NoMemory>
    ensures { IfOk result (λ firing. firing ≡ retry_of records.now.kept.jobs log.now) }
{
    let Some(left) = log.retries.get().checked_sub(1) else {
        return Ok(None);
    };
    if records.job(log.job).is_none() {
        return Ok(None);
    }
    Ok(Some(Firing {
        job: log.job,
        kind: TriggerKind::Retry,
        param: log.param.copy(alloc)?,
        retries: Retries::new(left).unwrap(),
        index: log.index,
        total: log.total,
    }))
}
