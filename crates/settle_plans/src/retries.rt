//! Failed logs, which are tried again where they may be.
ghost use Rattle.std.specs.Prelude.{Some, IfOk};
ghost use Rattle.job_events.specs.declared.cluster.ClusterEvent.TheVariants.{Monitor};
ghost use Rattle.cluster_history.specs.Firings.{shots_marked};
ghost use Rattle.cluster_plan.specs.Kept.{IsSound, kept_in, pools_in};
ghost use Rattle.cluster_plan.specs.Plans.{IsPlanned};
ghost use Rattle.log_opening.specs.Firing.{FiresAs};

use super::changes::put_behind;
use cluster_plan::{NodeChange, Prepared, Seen};
use job_events::{ClusterRefusal, ClusterReply};
use job_records::{Log, Records};
use job_values::{AdminNo, Moment, NoMemory, Seq};
use log_opening::{Fired, NewLog, fire_log, nothing_fired};
use settle_log::{first_failed, mark, retry_of};
use std::alloc::Global;
use trigger_pool::Pools;

/// Opens the log that tries a failed one again, of the job's row as it is now, if the log may be tried
/// again and its job is there; None where the ids are spent.
fn fire_again(
    alloc: Global,
    records: &Records,
    log: &Log,
    at: Moment,
    pools: &Pools,
) -> Result<Option<Fired>, NoMemory>
    ensures { IfOk result (FiresAs records.now.kept.last (pools_in pools.now.kept) (shots_marked records.now.kept.jobs at (Some log.now))) }
{
    let Some(firing) = retry_of(alloc, records, log)? else {
        return Ok(Some(nothing_fired(alloc, records)));
    };
    let Some(row) = records.job(firing.job) else {
        return Ok(Some(nothing_fired(alloc, records)));
    };
    let new = NewLog {
        row,
        param: &firing.param,
        kind: firing.kind,
        time: at,
        index: firing.index,
        total: firing.total,
        retries: firing.retries,
    };
    fire_log(alloc, records, &new, pools)
}

/// The first failed log that no monitor chose is marked, and tried again where it has a retry left and
/// its job is there. It is refused, in this order: NodeStopped; NothingDone where there is no such log;
/// IdsSpent where the log that tries it again would pass the last log id.
pub fn plan_monitor(seen: &Seen<'_>, admin: AdminNo, at: Moment) -> Result<Prepared, NoMemory>
    requires { IsSound (kept_in seen.now) }
    ensures { IfOk result (IsPlanned (kept_in seen.now) (Monitor admin at)) }
{
    let alloc = seen.alloc;
    if !seen.is_running(admin) {
        let why = ClusterRefusal::NodeStopped(admin);
        return Ok(Prepared::refusal(alloc, why));
    }
    let Some(log) = first_failed(seen.records) else {
        return Ok(Prepared::refusal(alloc, ClusterRefusal::NothingDone));
    };
    let row = mark(alloc, log)?;
    let pools = seen.pools_at(admin);
    let fired = fire_again(alloc, seen.records, log, at, pools)?;
    let Some(fired) = fired else {
        return Ok(Prepared::refusal(alloc, ClusterRefusal::IdsSpent));
    };
    let Fired {
        changes,
        entering,
        opened,
    } = fired;
    let changes = put_behind(changes, row)?;
    let reply = ClusterReply::Marked {
        log: log.id,
        opened,
    };
    let node = NodeChange::Fires(admin, Seq::of(entering));
    Ok(Prepared::changing(reply, Seq::of(changes), node))
}
