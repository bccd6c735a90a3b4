//! What is shown of a log.
ghost use Rattle.std.specs.Prelude.{◌≡◌, IfOk};
ghost use Rattle.job_events.specs.declared.cluster.ClusterEvent.TheVariants.{ReadLog};
ghost use Rattle.cluster_history.specs.Replies.{shown_of};
ghost use Rattle.cluster_plan.specs.Kept.{IsSound, kept_in};
ghost use Rattle.cluster_plan.specs.Plans.{IsPlanned};

use cluster_plan::{Prepared, Seen};
use job_events::{ClusterRefusal, ClusterReply, ShownLog};
use job_records::Log;
use job_values::{LogId, NoMemory};

/// What a row of a log shows.
fn shown(row: Log) -> ShownLog
    ensures { result ≡ shown_of row }
{
    ShownLog {
        log: row.id,
        job: row.job,
        group: row.group,
        address: row.address,
        handler: row.handler,
        param: row.param,
        index: row.index,
        total: row.total,
        retries: row.retries,
        kind: row.kind,
        time: row.time,
        trigger_code: row.trigger_code,
        result_time: row.result_time,
        result_code: row.result_code,
        result_text: row.result_text,
        marked: row.marked,
    }
}

/// What is known of a log.
pub fn plan_read_log(seen: &Seen<'_>, log: LogId) -> Result<Prepared, NoMemory>
    requires { IsSound (kept_in seen.now) }
    ensures { IfOk result (IsPlanned (kept_in seen.now) (ReadLog log)) }
{
    let Some(row) = seen.records.log(log) else {
        return Ok(Prepared::refusal(seen.alloc, ClusterRefusal::NoLog));
    };
    let row = row.copy(seen.alloc)?;
    Ok(Prepared::answer(seen.alloc, ClusterReply::Shown(shown(row))))
}
