//! Firings of several jobs, one after another.
ghost use Rattle.std.specs.Prelude.{◌≡◌, ◌≤◌, IfOk};
ghost use Rattle.job_values.specs.declared.limits.TheConstants.{LAST_LOG_ID};
ghost use Rattle.cluster_history.specs.Firings.{shots_if};
ghost use Rattle.cluster_history.specs.Looks.{job_with};
ghost use Rattle.log_opening.specs.Series.{OpensJob};

use super::opening::{Openings, open_logs, shard_count};
use job_events::Opened;
use job_records::Records;
use job_values::limits::LAST_LOG_ID;
use job_values::{JobId, Moment, NoMemory, Seq, TriggerKind};
use std::alloc::Global;

/// Opens the logs of a job that fires with its own parameter; None where the ids are spent. A job that
/// is gone opens none.
pub fn open_job(
    alloc: Global,
    records: &Records,
    kind: TriggerKind,
    at: Moment,
    job: JobId,
    openings: &mut Openings<'_>,
) -> Result<Option<Seq<Opened>>, NoMemory>
    requires { openings.old.last ≤ LAST_LOG_ID }
    ensures { IfOk result (OpensJob (shots_if records.now.kept.groups kind at (job_with job records.now.kept.jobs)) openings.old openings.new) }
{
    let Some(row) = records.job(job) else {
        return Ok(Some(Seq::new(alloc)));
    };
    let total = shard_count(records, &row.spec);
    if openings.last + total as u64 > LAST_LOG_ID {
        return Ok(None);
    }
    let param = &row.spec.param;
    let opened = open_logs(alloc, row, param, kind, at, total, openings)?;
    Ok(Some(opened))
}
