//! The children that a result fires.
ghost use Rattle.std.specs.Prelude.{◌≡◌, Some};
ghost use Rattle.settle_log.specs.Results.{children_of};

use job_records::{Log, Records};
use job_values::JobId;
use job_values::limits::SUCCESS;

/// The children that fire when a log gets a result with this code: those of its job, in order, where
/// the code is that of success. A removed job has none.
pub fn children_of<'a>(records: &'a Records, log: &Log, code: i32) -> &'a [JobId]
    ensures { result.now ≡ children_of records.now.kept.jobs code (Some log.now) }
{
    if code != SUCCESS {
        return &[];
    }
    match records.job(log.job) {
        Some(job) => job.spec.children.as_slice(),
        None => &[],
    }
}
