//! The take of a log from a pool.
ghost use Rattle.std.specs.Prelude.{◌≡◌, IfOk};
ghost use Rattle.job_events.specs.declared.cluster.ClusterEvent.TheVariants.{Take};
ghost use Rattle.cluster_history.specs.Orders.{order_by};
ghost use Rattle.cluster_plan.specs.Kept.{IsSound, kept_in};
ghost use Rattle.cluster_plan.specs.Plans.{IsPlanned};
ghost use Rattle.send_plans.specs.Takes.{taking};

use super::choices::{choice_for, given, pick_of};
use cluster_history::TakenLog;
use cluster_plan::{NodeChange, Prepared, Seen};
use job_events::{ClusterRefusal, ClusterReply, Order};
use job_records::Log;
use job_values::{AdminNo, Choice, Moment, NoMemory, PoolKind, Seq};
use std::alloc::Global;

/// What the run of a log is ordered to do.
fn order_of(alloc: Global, row: &Log, choice: Choice) -> Result<Order, NoMemory>
    ensures { IfOk result (λ order. order ≡ order_by row.now choice) }
{
    let handler = row.handler.copy(alloc)?;
    let param = row.param.copy(alloc)?;
    Ok(Order {
        log: row.id,
        job: row.job,
        handler,
        param,
        block: row.block,
        timeout: row.timeout,
        log_moment: row.time,
        index: row.index,
        total: row.total,
        choice,
    })
}

/// The take of this log by an admin, with this choice.
fn take_of(
    alloc: Global,
    admin: AdminNo,
    pool: PoolKind,
    row: &Log,
    choice: Choice,
) -> Result<Prepared, NoMemory>
    ensures { IfOk result (λ prepared. prepared ≡ taking admin pool row.now choice) }
{
    let addresses = given(alloc, &choice)?;
    let pick = pick_of(alloc, row, &choice)?;
    let order = order_of(alloc, row, choice)?;
    let taken = TakenLog {
        log: row.id,
        admin,
        addresses,
    };
    Ok(Prepared::changing(
        ClusterReply::Took(order),
        Seq::new(alloc),
        NodeChange::Takes(admin, pool, taken, pick),
    ))
}

/// An admin takes the first log of one of its pools. A random choice goes by the word; the moment
/// changes nothing.
pub fn plan_take(
    seen: &Seen<'_>,
    admin: AdminNo,
    pool: PoolKind,
    at: Moment,
    word: u64,
) -> Result<Prepared, NoMemory>
    requires { IsSound (kept_in seen.now) }
    ensures { IfOk result (IsPlanned (kept_in seen.now) (Take admin pool at word)) }
{
    if !seen.is_running(admin) {
        let why = ClusterRefusal::NodeStopped(admin);
        return Ok(Prepared::refusal(seen.alloc, why));
    }
    let node = seen.node_at(admin);
    let Some(id) = node.pools.front(pool) else {
        return Ok(Prepared::refusal(seen.alloc, ClusterRefusal::Empty));
    };
    let Some(row) = seen.records.log(id) else {
        return Ok(Prepared::refusal(seen.alloc, ClusterRefusal::Empty));
    };
    let choice = choice_for(seen.records, &node.routes, row, word)?;
    take_of(seen.alloc, admin, pool, row, choice)
}
