//! Lost logs.
ghost use Rattle.std.specs.Prelude.{IfOk};
ghost use Rattle.job_events.specs.declared.cluster.ClusterEvent.TheVariants.{Lost};
ghost use Rattle.cluster_plan.specs.Kept.{IsSound, kept_in};
ghost use Rattle.cluster_plan.specs.Plans.{IsPlanned};

use super::changes::put_behind;
use cluster_plan::{NodeChange, Prepared, Seen};
use job_events::{ClusterRefusal, ClusterReply};
use job_values::{Moment, NoMemory, Seq};
use settle_log::{first_lost, lost_row};

/// The first log that is lost at a moment has its result, that of failure with the text `job lost`.
/// NothingDone exactly where no log is lost.
pub fn plan_lost(seen: &Seen<'_>, at: Moment) -> Result<Prepared, NoMemory>
    requires { IsSound (kept_in seen.now) }
    ensures { IfOk result (IsPlanned (kept_in seen.now) (Lost at)) }
{
    let alloc = seen.alloc;
    let Some(log) = first_lost(seen.records, at) else {
        return Ok(Prepared::refusal(alloc, ClusterRefusal::NothingDone));
    };
    let row = lost_row(alloc, log, at)?;
    let changes = put_behind(Vec::new(alloc), row)?;
    let reply = ClusterReply::Lost(log.id);
    Ok(Prepared::changing(reply, Seq::of(changes), NodeChange::Nothing))
}
