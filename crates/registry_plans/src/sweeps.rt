//! The sweep.
ghost use Rattle.std.specs.Prelude.{◌≡◌, IfOk};
ghost use Rattle.job_events.specs.declared.cluster.ClusterEvent.TheVariants.{Sweep};
ghost use Rattle.cluster_plan.specs.Kept.{IsSound, kept_in};
ghost use Rattle.cluster_plan.specs.Plans.{IsPlanned};

use cluster_plan::{NodeChange, Prepared, Seen};
use job_events::ClusterReply;
use job_values::{Moment, NoMemory, Seq};
use registry_beats::{Swept, sweep};

/// The registrations that are dead at a moment are dropped, and the automatic groups get their lists.
pub fn plan_sweep(seen: &Seen<'_>, at: Moment) -> Result<Prepared, NoMemory>
    requires { IsSound (kept_in seen.now) }
    ensures { IfOk result (IsPlanned (kept_in seen.now) (Sweep at)) }
{
    let Swept { changes, dropped } = sweep(seen.alloc, seen.records, at)?;
    let reply = ClusterReply::Swept(dropped as u64);
    Ok(Prepared::changing(reply, Seq::of(changes), NodeChange::Nothing))
}
