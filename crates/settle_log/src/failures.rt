//! Logs that are ended, settled or failed, and the failed one that is looked at next.
ghost use Rattle.std.specs.Prelude.{◌≡◌, IfOk};
ghost use Rattle.std.specs.Option.{option_copied};
ghost use Rattle.settle_log.specs.Settling.{ended_log, is_settled, is_failed, first_failed, marked_log};

use job_records::{Log, Records};
use job_values::NoMemory;
use job_values::limits::FAILURE;
use std::alloc::Global;

/// A log with the trigger code of a stop.
pub fn ended(mut log: Log) -> Log
    ensures { result ≡ ended_log log }
{
    log.trigger_code = FAILURE;
    log
}

/// Whether a log has a result.
pub fn settled(log: &Log) -> bool
    ensures { result ≡ is_settled log.now }
{
    log.result_code != 0
}

/// Whether a log is neither under way nor settled with success.
pub fn failed(log: &Log) -> bool
    ensures { result ≡ is_failed log.now }
{
    log.is_failed()
}

/// The first failed log that was not looked at: the first of the index, and a binary search.
pub fn first_failed(records: &Records) -> Option<&Log>
    ensures { option_copied result ≡ first_failed records.now.kept.logs }
{
    match records.log_index().least_failed() {
        Some(id) => records.log(id),
        None => None,
    }
}

/// The row of a log that was looked at as a failed one.
pub fn mark(alloc: Global, log: &Log) -> Result<Log, NoMemory>
    ensures { IfOk result (λ row. row ≡ marked_log log.now) }
{
    let mut row = log.copy(alloc)?;
    row.marked = true;
    Ok(row)
}
