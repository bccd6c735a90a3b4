//! What is kept of each admin, and how an event changes it.
ghost use Rattle.std.specs.Prelude.{◌≡◌, ◌≤◌, length, map, replicate, IfOk, OnOk};
ghost use Rattle.job_values.specs.declared.limits.TheConstants.{ADMINS};
ghost use Rattle.cluster_plan.specs.Nodes.{idle, node_in, nodes_with, entered, ring_with, started, stopped, after_step, after_ring, after_firing};
ghost use Rattle.cluster_core.specs.Room.{ring_room, pool_room, HasRoomToPut};

use cluster_plan::{Entering, Node};
use job_values::limits::ADMINS;
use job_values::{AdminNo, NoMemory, Seq};
use route_strategies::Routes;
use std::alloc::Global;
use time_ring::{Ticket, TimeRing};
use trigger_pool::Pools;

/// An admin that does not run, without tickets, logs and picks.
fn idle_node(alloc: Global) -> Result<Node, NoMemory>
    ensures { IfOk result (λ one. node_in one ≡ idle) }
{
    let ring = TimeRing::new(alloc)?;
    Ok(Node {
        running: false,
        ring,
        pools: Pools::new(alloc),
        routes: Routes::new(alloc),
    })
}

/// Every admin, of which none runs.
pub fn idle_nodes(alloc: Global) -> Result<Vec<Node>, NoMemory>
    ensures { IfOk result (λ nodes. map node_in nodes.items ≡ replicate ADMINS idle) }
{
    let mut nodes = Vec::with_capacity(alloc, ADMINS).map_err(|_| NoMemory)?;
    for _ in 0..ADMINS {
        nodes.push_reserved(idle_node(alloc)?);
    }
    Ok(nodes)
}

/// Makes room for a ticket, if there is one, and for so many logs.
fn reserve(node: &mut Node, put: &Option<Ticket>, count: usize) -> Result<(), NoMemory>
    ensures ring { OnOk result (HasRoomToPut node.new.ring.room put.now) }
    ensures pools { OnOk result (count ≤ node.new.pools.room.logs) }
    ensures same { node_in node.new ≡ node_in node.old }
{
    if let Some(ticket) = put {
        node.ring.reserve(ticket.due, 1)?;
    }
    node.pools.reserve(count)
}

/// Makes room for a ticket, if there is one, and for so many logs at one of the admins. It moves no
/// ticket and no log, whatever it answers.
pub fn reserve_at(
    nodes: &mut Vec<Node>,
    admin: AdminNo,
    put: &Option<Ticket>,
    count: usize,
) -> Result<(), NoMemory>
    requires { length nodes.old.items ≡ ADMINS }
    ensures ring { OnOk result (HasRoomToPut (ring_room nodes.new.items admin) put.now) }
    ensures pools { OnOk result (count ≤ pool_room nodes.new.items admin) }
    ensures same { map node_in nodes.new.items ≡ map node_in nodes.old.items }
{
    reserve(&mut nodes[admin.get() as usize], put, count)
}

/// One of the admins runs.
pub fn start_at(nodes: &mut Vec<Node>, admin: AdminNo)
    requires { length nodes.old.items ≡ ADMINS }
    ensures { map node_in nodes.new.items ≡ nodes_with admin started (map node_in nodes.old.items) }
{
    nodes[admin.get() as usize].running = true;
}

/// An admin stops: its tickets, its logs and its picks are gone.
fn stop(alloc: Global, node: &mut Node)
    ensures { node_in node.new ≡ idle }
{
    node.running = false;
    node.ring.clear();
    node.pools = Pools::new(alloc);
    node.routes = Routes::new(alloc);
}

/// One of the admins stops.
pub fn stop_at(alloc: Global, nodes: &mut Vec<Node>, admin: AdminNo)
    requires { length nodes.old.items ≡ ADMINS }
    ensures { map node_in nodes.new.items ≡ nodes_with admin stopped (map node_in nodes.old.items) }
{
    stop(alloc, &mut nodes[admin.get() as usize]);
}

/// Every admin stops.
pub fn stop_each(alloc: Global, nodes: &mut Vec<Node>)
    ensures { map node_in nodes.new.items ≡ replicate (length nodes.old.items) idle }
{
    for node in nodes.iter_mut() {
        stop(alloc, node);
    }
}

/// Puts a ticket, if there is one, into a ring.
fn put_in(ring: &mut TimeRing, put: Option<Ticket>)
    requires { HasRoomToPut ring.old.room put }
    ensures { ring.new.slots ≡ ring_with ring.old.slots put }
{
    if let Some(ticket) = put {
        ring.put(ticket);
    }
}

/// Puts logs into the pools of an admin.
fn enter(pools: &mut Pools, logs: &Seq<Entering>)
    requires { length logs.now ≤ pools.old.room.logs }
    ensures { pools.new.kept ≡ entered pools.old.kept logs.now }
{
    for log in logs.as_slice() {
        pools.add(log.log, log.job);
    }
}

/// A step: its ticket, if there is one, goes into the ring, its logs into the pools.
fn step(node: &mut Node, put: Option<Ticket>, logs: &Seq<Entering>)
    requires ring { HasRoomToPut node.old.ring.room put }
    requires pools { length logs.now ≤ node.old.pools.room.logs }
    ensures { node_in node.new ≡ after_step put logs.now (node_in node.old) }
{
    put_in(&mut node.ring, put);
    enter(&mut node.pools, logs);
}

/// A step of one of the admins.
pub fn step_at(nodes: &mut Vec<Node>, admin: AdminNo, put: Option<Ticket>, logs: &Seq<Entering>)
    requires admins { length nodes.old.items ≡ ADMINS }
    requires ring { HasRoomToPut (ring_room nodes.old.items admin) put }
    requires pools { length logs.now ≤ pool_room nodes.old.items admin }
    ensures { map node_in nodes.new.items ≡ nodes_with admin (after_step put logs.now) (map node_in nodes.old.items) }
{
    step(&mut nodes[admin.get() as usize], put, logs);
}

/// A turn at a second: the ring turns, the logs go into the pools.
fn turn(node: &mut Node, second: u64, logs: &Seq<Entering>)
    requires { length logs.now ≤ node.old.pools.room.logs }
    ensures { node_in node.new ≡ after_ring second logs.now (node_in node.old) }
{
    node.ring.take(second);
    enter(&mut node.pools, logs);
}

/// A turn of one of the admins.
pub fn turn_at(nodes: &mut Vec<Node>, admin: AdminNo, second: u64, logs: &Seq<Entering>)
    requires admins { length nodes.old.items ≡ ADMINS }
    requires pools { length logs.now ≤ pool_room nodes.old.items admin }
    ensures { map node_in nodes.new.items ≡ nodes_with admin (after_ring second logs.now) (map node_in nodes.old.items) }
{
    turn(&mut nodes[admin.get() as usize], second, logs);
}

/// Logs that one of the admins fired by hand go into its pools.
pub fn fire_at(nodes: &mut Vec<Node>, admin: AdminNo, logs: &Seq<Entering>)
    requires admins { length nodes.old.items ≡ ADMINS }
    requires pools { length logs.now ≤ pool_room nodes.old.items admin }
    ensures { map node_in nodes.new.items ≡ nodes_with admin (after_firing logs.now) (map node_in nodes.old.items) }
{
    enter(&mut nodes[admin.get() as usize].pools, logs);
}
