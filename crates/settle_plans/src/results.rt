//! Results of logs, which executors call back.
ghost use Rattle.std.specs.Prelude.{◌≡◌, Some, true, IfOk};
ghost use Rattle.job_events.specs.declared.cluster.ClusterEvent.TheVariants.{Callback};
ghost use Rattle.cluster_history.specs.History.{History, accepted};
ghost use Rattle.cluster_history.specs.Nodes.{runs};
ghost use Rattle.cluster_plan.specs.Kept.{IsSound, kept_in};
ghost use Rattle.cluster_plan.specs.Plans.{IsPlanned};
ghost use Rattle.cluster_plan.specs.Stands.{Stands};
ghost use Rattle.settle_log.specs.Settling.{log_with};
ghost use Rattle.settle_log.specs.Results.{Settles};

use super::changes::put_behind;
use super::children::{FiredChildren, fire_children};
use cluster_plan::{NodeChange, Prepared, Seen};
use job_events::{ClusterRefusal, ClusterReply};
use job_records::Log;
use job_values::{AdminNo, CallbackItem, Moment, NoMemory, Seq};
use settle_log::{SettleFault, children_of, is_positive, settle};

/// A log has its result, and its children fire where that is a success.
fn plan_settled(
    seen: &Seen<'_>,
    admin: AdminNo,
    at: Moment,
    item: &CallbackItem,
    log: &Log,
    row: Log,
) -> Result<Prepared, NoMemory>
    requires sound { IsSound (kept_in seen.now) }
    requires runs { (h : History) → Stands (kept_in seen.now) (accepted h) → runs (accepted h) admin ≡ true }
    requires found { log_with item.now.log (kept_in seen.now).tables.logs ≡ Some log.now }
    requires settles { Settles at item.now log.now row }
    ensures { IfOk result (IsPlanned (kept_in seen.now) (Callback admin at item.now)) }
{
    let alloc = seen.alloc;
    let children = children_of(seen.records, log, item.code);
    let pools = seen.pools_at(admin);
    let fired = fire_children(alloc, seen.records, at, children, pools)?;
    let Some(fired) = fired else {
        return Ok(Prepared::refusal(alloc, ClusterRefusal::IdsSpent));
    };
    let FiredChildren {
        changes,
        entering,
        children,
    } = fired;
    let changes = put_behind(changes, row)?;
    let reply = ClusterReply::Settled {
        code: item.code,
        children: Seq::of(children),
    };
    let node = NodeChange::Fires(admin, Seq::of(entering));
    Ok(Prepared::changing(reply, Seq::of(changes), node))
}

/// The result of a log is called back, and its children fire where the code is that of success. It is
/// refused, in this order: NodeStopped; BadCode where the code is not positive; NoLog; Repeat where the
/// log has a result, with that one's code; IdsSpent where a child's log would pass the last log id.
pub fn plan_callback(
    seen: &Seen<'_>,
    admin: AdminNo,
    at: Moment,
    item: &CallbackItem,
) -> Result<Prepared, NoMemory>
    requires { IsSound (kept_in seen.now) }
    ensures { IfOk result (IsPlanned (kept_in seen.now) (Callback admin at item.now)) }
{
    let alloc = seen.alloc;
    if !seen.is_running(admin) {
        let why = ClusterRefusal::NodeStopped(admin);
        return Ok(Prepared::refusal(alloc, why));
    }
    if !is_positive(item.code) {
        return Ok(Prepared::refusal(alloc, ClusterRefusal::BadCode));
    }
    let Some(log) = seen.records.log(item.log) else {
        return Ok(Prepared::refusal(alloc, ClusterRefusal::NoLog));
    };
    match settle(alloc, log, item, at) {
        Ok(row) => plan_settled(seen, admin, at, item, log, row),
        Err(SettleFault::Repeat { code }) => {
            Ok(Prepared::refusal(alloc, ClusterRefusal::Repeat(code)))
        }
        Err(SettleFault::BadCode) => Ok(Prepared::refusal(alloc, ClusterRefusal::BadCode)),
        Err(SettleFault::NoMemory) => Err(NoMemory),
    }
}
