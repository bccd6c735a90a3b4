//! The logs that admins have: in their pools, and taken.
ghost use Rattle.std.specs.Prelude.{◌≡◌, [], ◌∷◌, ◌++◌, length, map, IfOk, OnOk};
ghost use Rattle.std.specs.List.{concat};
ghost use Rattle.cluster_plan.specs.Kept.{logs_in};
ghost use Rattle.node_plans.specs.Endings.{taken_in};

use cluster_history::TakenLog;
use cluster_plan::Node;
use job_values::{AdminNo, LogId, NoMemory, PoolKind};
use std::alloc::Global;
use std::collections::VecDeque;
use trigger_pool::Pools;

/// Puts a log behind others.
fn add_log(id: LogId, ids: &mut Vec<LogId>) -> Result<(), NoMemory>
    ensures { OnOk result (ids.new.items ≡ ids.old.items ++ id ∷ []) }
{
    ids.push(id).map_err(|_| NoMemory)
}

/// Puts the logs of a queue behind others.
fn add_queue(queue: &VecDeque<LogId>, ids: &mut Vec<LogId>) -> Result<(), NoMemory>
    ensures { OnOk result (ids.new.items ≡ ids.old.items ++ queue.now.items) }
{
    for at in 0..queue.len() {
        add_log(queue[at], ids)?;
    }
    Ok(())
}

/// Puts the logs of both pools of an admin behind others.
fn add_pools(pools: &Pools, ids: &mut Vec<LogId>) -> Result<(), NoMemory>
    ensures { OnOk result (ids.new.items ≡ ids.old.items ++ logs_in pools.now.kept) }
{
    add_queue(pools.waiting(PoolKind::Fast), ids)?;
    add_queue(pools.waiting(PoolKind::Slow), ids)?;
    Ok(())
}

/// Puts the logs that an admin took behind others.
fn add_taken(taken: &Vec<TakenLog>, admin: AdminNo, ids: &mut Vec<LogId>) -> Result<(), NoMemory>
    ensures { OnOk result (ids.new.items ≡ ids.old.items ++ taken_in taken.now.items admin) }
{
    for one in taken {
        if one.admin == admin {
            add_log(one.log, ids)?;
        }
    }
    Ok(())
}

/// Puts the logs that any admin took behind others.
fn add_all_taken(taken: &Vec<TakenLog>, ids: &mut Vec<LogId>) -> Result<(), NoMemory>
    ensures { OnOk result (ids.new.items ≡ ids.old.items ++ map (λ t. t.log) taken.now.items) }
{
    for one in taken {
        add_log(one.log, ids)?;
    }
    Ok(())
}

/// Puts the logs of the pools of all admins behind others.
fn add_nodes(nodes: &Vec<Node>, ids: &mut Vec<LogId>) -> Result<(), NoMemory>
    ensures { OnOk result (ids.new.items ≡ ids.old.items ++ concat (map (λ one. logs_in one.pools.kept) nodes.now.items)) }
{
    for node in nodes {
        add_pools(&node.pools, ids)?;
    }
    Ok(())
}

/// The logs that an admin has: those in its pools, then those that it took. It passes once over all
/// logs that were taken and not sent.
pub fn held_by(
    alloc: Global,
    pools: &Pools,
    taken: &Vec<TakenLog>,
    admin: AdminNo,
) -> Result<Vec<LogId>, NoMemory>
    ensures { IfOk result (λ ids. ids.items ≡ logs_in pools.now.kept ++ taken_in taken.now.items admin) }
{
    let mut ids = Vec::new(alloc);
    add_pools(pools, &mut ids)?;
    add_taken(taken, admin, &mut ids)?;
    Ok(ids)
}

/// The logs that any admin has: those in all pools, then those that were taken and not sent.
pub fn held_by_all(
    alloc: Global,
    nodes: &Vec<Node>,
    taken: &Vec<TakenLog>,
) -> Result<Vec<LogId>, NoMemory>
    ensures { IfOk result (λ ids. ids.items ≡ concat (map (λ one. logs_in one.pools.kept) nodes.now.items) ++ map (λ t. t.log) taken.now.items) }
{
    let mut ids = Vec::new(alloc);
    add_nodes(nodes, &mut ids)?;
    add_all_taken(taken, &mut ids)?;
    Ok(ids)
}

/// How many logs these are.
pub fn count(ids: &Vec<LogId>) -> u64
    ensures { result ≡ length ids.now.items }
{
    ids.as_slice().len() as u64
}
