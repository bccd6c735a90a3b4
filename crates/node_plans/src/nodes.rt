//! The start and the stop of admins.
ghost use Rattle.std.specs.Prelude.{IfOk};
ghost use Rattle.job_events.specs.declared.cluster.ClusterEvent.TheVariants.{NodeStart, NodeStop, NodeAsk, Reopen};
ghost use Rattle.cluster_plan.specs.Kept.{IsSound, kept_in};
ghost use Rattle.cluster_plan.specs.Plans.{IsPlanned};

use super::endings::{end_logs, lost_tickets};
use super::held::{count, held_by, held_by_all};
use cluster_plan::{NodeChange, Prepared, Seen};
use job_events::{ClusterRefusal, ClusterReply};
use job_values::{AdminNo, NoMemory, Seq};

/// An admin starts.
pub fn plan_start(seen: &Seen<'_>, admin: AdminNo) -> Prepared
    requires { IsSound (kept_in seen.now) }
    ensures { IsPlanned (kept_in seen.now) (NodeStart admin) result }
{
    if seen.is_running(admin) {
        return Prepared::refusal(seen.alloc, ClusterRefusal::NodeRunning(admin));
    }
    Prepared::changing(
        ClusterReply::Done,
        Seq::new(seen.alloc),
        NodeChange::Starts(admin),
    )
}

/// An admin stops: its logs that were not sent end, those in its pools and those that it took, and its
/// ring and its scan are lost. It passes once over all logs that were taken and not sent.
pub fn plan_stop(seen: &Seen<'_>, admin: AdminNo) -> Result<Prepared, NoMemory>
    requires { IsSound (kept_in seen.now) }
    ensures { IfOk result (IsPlanned (kept_in seen.now) (NodeStop admin)) }
{
    if !seen.is_running(admin) {
        let why = ClusterRefusal::NodeStopped(admin);
        return Ok(Prepared::refusal(seen.alloc, why));
    }
    let node = seen.node_at(admin);
    let lost = node.ring.count();
    let ids = held_by(seen.alloc, &node.pools, seen.taken, admin)?;
    let ended = count(&ids);
    let changes = end_logs(seen.alloc, seen.records, &ids)?;
    Ok(Prepared::changing(
        ClusterReply::Stopped { lost, ended },
        Seq::of(changes),
        NodeChange::Stops(admin),
    ))
}

/// Whether an admin runs.
pub fn plan_ask(seen: &Seen<'_>, admin: AdminNo) -> Prepared
    requires { IsSound (kept_in seen.now) }
    ensures { IsPlanned (kept_in seen.now) (NodeAsk admin) result }
{
    if !seen.is_running(admin) {
        return Prepared::refusal(seen.alloc, ClusterRefusal::NodeStopped(admin));
    }
    Prepared::answer(seen.alloc, ClusterReply::Done)
}

/// Every admin stops.
pub fn plan_reopen(seen: &Seen<'_>) -> Result<Prepared, NoMemory>
    requires { IsSound (kept_in seen.now) }
    ensures { IfOk result (IsPlanned (kept_in seen.now) Reopen) }
{
    let lost = lost_tickets(seen.nodes);
    let ids = held_by_all(seen.alloc, seen.nodes, seen.taken)?;
    let ended = count(&ids);
    let changes = end_logs(seen.alloc, seen.records, &ids)?;
    Ok(Prepared::changing(
        ClusterReply::Reopened { lost, ended },
        Seq::of(changes),
        NodeChange::StopsAll,
    ))
}
