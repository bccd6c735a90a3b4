//! What takes and sendings change: the taken logs, and the pools and picks of an admin.
ghost use Rattle.std.specs.Prelude.{◌≡◌, ℕ, ◌<◌, ◌==◌, length, map, filter, not, vec_len, vec_capacity, OnOk};
ghost use Rattle.job_values.specs.declared.limits.TheConstants.{ADMINS};
ghost use Rattle.job_records.specs.Rows.{RisesFrom};
ghost use Rattle.cluster_history.specs.Orders.{put_taken};
ghost use Rattle.cluster_plan.specs.Nodes.{node_in, nodes_with, routes_with, after_take, after_sending};
ghost use Rattle.cluster_core.specs.Room.{count_room, routes_at, HasRoomToPick};

use cluster_history::TakenLog;
use cluster_plan::{Node, Pick};
use job_values::{AdminNo, JobId, Moment, NoMemory, PoolKind};
use rising_rows::put;
use route_strategies::Routes;

/// Puts a log among those that were taken.
pub fn put_taken(taken: &mut Vec<TakenLog>, one: TakenLog)
    requires rising { RisesFrom (λ t. t.log) 0 taken.old.items }
    requires room { vec_len taken.old < vec_capacity taken.old }
    ensures rows { taken.new.items ≡ put_taken one taken.old.items }
    ensures first { 0 < one.log }
{
    let _id = one.log.get();
    put(taken, one);
}

/// Whether another admin took a log.
fn is_of_another(one: &TakenLog, admin: AdminNo) -> bool
    ensures { result ≡ not (one.now.admin == admin) }
{
    one.admin != admin
}

/// Forgets the logs that an admin took: one pass over all that were taken.
pub fn forget_at(taken: &mut Vec<TakenLog>, admin: AdminNo)
    ensures { taken.new.items ≡ filter (λ t. not (t.admin == admin)) taken.old.items }
{
    taken.retain(|one| is_of_another(one, admin));
}

/// Makes room for a pick, if there is one.
fn reserve_for(routes: &mut Routes, pick: &Option<Pick>) -> Result<(), NoMemory>
    ensures ok { OnOk result (HasRoomToPick routes.new pick.now) }
    ensures same { routes.new.kept ≡ routes.old.kept }
{
    match pick {
        Some(pick) => {
            routes.reserve(pick.job)?;
            Ok(())
        }
        None => Ok(()),
    }
}

/// Makes room for a pick, if there is one, at one of the admins. It changes nothing that is kept.
pub fn reserve_pick(
    nodes: &mut Vec<Node>,
    admin: AdminNo,
    pick: &Option<Pick>,
) -> Result<(), NoMemory>
    requires { length nodes.old.items ≡ ADMINS }
    ensures ok { OnOk result (HasRoomToPick (routes_at nodes.new.items admin) pick.now) }
    ensures same { map node_in nodes.new.items ≡ map node_in nodes.old.items }
{
    reserve_for(&mut nodes[admin.get() as usize].routes, pick)
}

/// Makes room for the slow count of one more job at one of the admins. It changes nothing that is kept.
pub fn reserve_count(nodes: &mut Vec<Node>, admin: AdminNo) -> Result<(), NoMemory>
    requires { length nodes.old.items ≡ ADMINS }
    ensures ok { OnOk result (0 < count_room nodes.new.items admin) }
    ensures same { map node_in nodes.new.items ≡ map node_in nodes.old.items }
{
    nodes[admin.get() as usize].pools.reserve(0)
}

/// Takes account of a pick, if there is one.
fn pick_in(routes: &mut Routes, pick: Option<Pick>)
    requires { HasRoomToPick routes.old pick }
    ensures { routes.new.kept ≡ routes_with routes.old.kept pick }
{
    if let Some(pick) = pick {
        routes.pick(pick.job, pick.address.into_text());
    }
}

/// An admin takes the first log of a pool, and with it picks an address, if it does.
fn take_from(node: &mut Node, pool: PoolKind, pick: Option<Pick>)
    requires { HasRoomToPick node.old.routes pick }
    ensures { node_in node.new ≡ after_take pool pick (node_in node.old) }
{
    node.pools.take(pool);
    pick_in(&mut node.routes, pick);
}

/// The same of one of the admins.
pub fn take_at(nodes: &mut Vec<Node>, admin: AdminNo, pool: PoolKind, pick: Option<Pick>)
    requires admins { length nodes.old.items ≡ ADMINS }
    requires room { HasRoomToPick (routes_at nodes.old.items admin) pick }
    ensures { map node_in nodes.new.items ≡ nodes_with admin (after_take pool pick) (map node_in nodes.old.items) }
{
    take_from(&mut nodes[admin.get() as usize], pool, pick);
}

/// One of the admins sent a log of a job.
pub fn send_at(nodes: &mut Vec<Node>, admin: AdminNo, job: JobId, start: Moment, end: Moment)
    requires admins { length nodes.old.items ≡ ADMINS }
    requires room { 0 < count_room nodes.old.items admin }
    ensures { map node_in nodes.new.items ≡ nodes_with admin (after_sending (record { job = job; start = start; end = end })) (map node_in nodes.old.items) }
{
    nodes[admin.get() as usize].pools.report(job, start, end);
}
