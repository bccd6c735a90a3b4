//! What a cluster keeps, as it is lent to the plans.
ghost use Rattle.std.specs.Prelude.{◌≡◌};
ghost use Rattle.cluster_history.specs.History.{History, accepted};
ghost use Rattle.cluster_history.specs.Nodes.{runs};
ghost use Rattle.cluster_plan.specs.Nodes.{node_in, node_at};
ghost use Rattle.cluster_plan.specs.Kept.{IsSound, kept_in, pools_at};
ghost use Rattle.cluster_plan.specs.Stands.{Stands};

use super::node::Node;
use cluster_history::{Scan, Settings, TakenLog};
use job_records::Records;
use job_values::AdminNo;
use std::alloc::Global;
use trigger_pool::Pools;

/// What a cluster keeps, to be read; a node for each admin.
#[derive(Clone, Copy)]
pub struct Seen<'a> {
    /// What gives a plan its memory.
    pub alloc: Global,
    pub settings: Settings,
    pub records: &'a Records,
    pub scan: &'a Option<Scan>,
    /// The logs that were taken and not sent, in order of their ids.
    pub taken: &'a Vec<TakenLog>,
    pub nodes: &'a Vec<Node>,
}

impl<'a> Seen<'a> {
    /// What is kept of an admin.
    pub fn node_at(&self, admin: AdminNo) -> &'a Node
        requires { IsSound (kept_in self.now) }
        ensures { node_in result.now ≡ node_at (kept_in self.now).nodes admin }
    {
        &self.nodes[admin.get() as usize]
    }

    /// Whether an admin runs.
    pub fn is_running(&self, admin: AdminNo) -> bool
        requires { IsSound (kept_in self.now) }
        ensures { (h : History) → Stands (kept_in self.now) (accepted h) → result ≡ runs (accepted h) admin }
    {
        self.node_at(admin).running
    }

    /// The pools of an admin.
    pub fn pools_at(&self, admin: AdminNo) -> &'a Pools
        requires { IsSound (kept_in self.now) }
        ensures { result.now.kept ≡ pools_at (kept_in self.now) admin }
    {
        &self.node_at(admin).pools
    }
}
