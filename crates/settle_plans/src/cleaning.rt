//! Old logs, which are dropped.
ghost use Rattle.std.specs.Prelude.{IfOk};
ghost use Rattle.job_events.specs.declared.cluster.ClusterEvent.TheVariants.{Clean};
ghost use Rattle.cluster_plan.specs.Kept.{IsSound, kept_in};
ghost use Rattle.cluster_plan.specs.Plans.{IsPlanned};

use cluster_plan::{NodeChange, Prepared, Seen};
use job_events::ClusterReply;
use job_values::{Moment, NoMemory};
use settle_log::clean;

/// The logs that are old at a moment are dropped: one pass over the logs, and one run of drops. It is
/// never refused.
pub fn plan_clean(seen: &Seen<'_>, at: Moment) -> Result<Prepared, NoMemory>
    requires { IsSound (kept_in seen.now) }
    ensures { IfOk result (IsPlanned (kept_in seen.now) (Clean at)) }
{
    let changes = clean(seen.alloc, seen.records, at)?;
    let count = changes.len() as u64;
    let reply = ClusterReply::Cleaned(count);
    Ok(Prepared::changing(reply, changes, NodeChange::Nothing))
}
