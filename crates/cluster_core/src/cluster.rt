//! The cluster: what it keeps, and the calls that change it.
ghost use Rattle.std.specs.Prelude.{◌≡◌, IfOk, OnErr};

use super::nodes::idle_nodes;
use super::plan::plan_event;
use cluster_history::{Scan, Settings, TakenLog};
use cluster_plan::{Node, Prepared, Seen};
use job_events::{ClusterEvent, ClusterReply};
use job_records::Records;
use job_values::{AdminNo, NoMemory};
use std::alloc::Global;
use std::marker::Model;
use time_ring::TimeRing;
use trigger_pool::Pools;

/// The admins and what they share. Contracts see the rows, the open scan, and for each admin whether
/// it runs, its ring, its pools and its picks, and the logs that were taken and not sent.
#[derive(Drop)]
pub struct Cluster {
    pub(crate) alloc: Global,
    pub(crate) settings: Settings,
    pub(crate) records: Records,
    pub(crate) scan: Option<Scan>,
    // In order of their ids.
    pub(crate) taken: Vec<TakenLog>,
    pub(crate) nodes: Vec<Node>,
}

impl Model for Cluster {
    ghost use Rattle.std.specs.Prelude.{◌-◌, vec_len, vec_capacity};
    ghost use Rattle.cluster_core.specs.Kept.{ClusterState, kept_of};
    ghost use Rattle.cluster_plan.specs.Kept.{IsSound};

    ghost Value = { ClusterState };

    ghost view = { λ c. record {
      settings = c.settings;
      records = c.records;
      scan = c.scan;
      taken = c.taken.items;
      taken_room = vec_capacity c.taken - vec_len c.taken;
      nodes = c.nodes.items;
    } };

    ghost invariant = { λ c. IsSound (kept_of (record {
      settings = c.settings;
      records = c.records;
      scan = c.scan;
      taken = c.taken.items;
      taken_room = vec_capacity c.taken - vec_len c.taken;
      nodes = c.nodes.items;
    })) };
}

impl Cluster {
    ghost use Rattle.cluster_history.specs.History.{History, Begin, accepted, empty_opening};
    ghost use Rattle.cluster_history.specs.Nodes.{runs};
    ghost use Rattle.cluster_plan.specs.Kept.{IsSound};
    ghost use Rattle.cluster_core.specs.Kept.{kept_of};
    ghost use Rattle.cluster_plan.specs.Commits.{committed};
    ghost use Rattle.cluster_core.specs.Room.{CanCommit};
    ghost use Rattle.cluster_plan.specs.Plans.{IsPlanned};
    ghost use Rattle.cluster_core.specs.Plans.{IsPrepared};
    ghost use Rattle.cluster_core.specs.Stands.{StandsFor, Answers, owner_after};
    ghost use Rattle.cluster_history.specs.Records.{records_of};
    ghost use Rattle.cluster_plan.specs.Stands.{ring_of, queues_of};

    /// A cluster without rows, in which no admin runs.
    pub fn new(alloc: Global, settings: Settings) -> Result<Cluster, NoMemory>
        ensures { IfOk result (λ cluster. StandsFor cluster (Begin (empty_opening settings))) }
    {
        let nodes = idle_nodes(alloc)?;
        Ok(Cluster {
            alloc,
            settings,
            records: Records::new(alloc),
            scan: None,
            taken: Vec::new(alloc),
            nodes,
        })
    }

    /// What is kept, lent to the plans.
    fn seen(&self) -> Seen<'_>
        ensures settings { result.settings ≡ self.now.settings }
        ensures rows { result.records.now ≡ self.now.records }
        ensures scan { result.scan.now ≡ self.now.scan }
        ensures taken { result.taken.now.items ≡ self.now.taken }
        ensures nodes { result.nodes.now.items ≡ self.now.nodes }
        ensures sound { IsSound (kept_of self.now) }
    {
        Seen {
            alloc: self.alloc,
            settings: self.settings,
            records: &self.records,
            scan: &self.scan,
            taken: &self.taken,
            nodes: &self.nodes,
        }
    }

    /// What an event will answer and change.
    fn plan(&self, event: &ClusterEvent) -> Result<Prepared, NoMemory>
        ensures { IfOk result (IsPlanned (kept_of self.now) event.now) }
    {
        let seen = self.seen();
        plan_event(&seen, event)
    }

    /// Decides an event, and takes all memory that it needs. It changes nothing that is kept,
    /// whatever it answers.
    pub fn prepare(&mut self, event: &ClusterEvent) -> Result<Prepared, NoMemory>
        ensures prepared { IfOk result (IsPrepared self.new event.now) }
        ensures same { kept_of self.new ≡ kept_of self.old }
    {
        let prepared = self.plan(event)?;
        self.make_room(&prepared)?;
        Ok(prepared)
    }

    /// Does what was prepared on this state last, and replies. It takes no memory.
    pub fn commit(&mut self, prepared: Prepared) -> ClusterReply
        requires { CanCommit self.old prepared }
        ensures reply { result ≡ prepared.reply }
        ensures kept { kept_of self.new ≡ committed (kept_of self.old) prepared }
        ensures answers { (event : ClusterEvent) → IsPrepared self.old event prepared → Answers self.old event result self.new }
    {
        let (reply, changes, node) = prepared.into_parts();
        self.change_node(node);
        self.records.apply(changes);
        reply
    }

    /// Acts an event and replies to it. A refused event changes nothing.
    pub fn step(&mut self, event: &ClusterEvent) -> Result<ClusterReply, NoMemory>
        ensures answers { IfOk result (λ reply. Answers self.old event.now reply self.new) }
        ensures err { OnErr result (kept_of self.new ≡ kept_of self.old) }
    {
        let prepared = self.prepare(event)?;
        Ok(self.commit(prepared))
    }

    /// The groups, jobs, logs and registrations, and the last ids.
    pub fn records(&self) -> &Records
        ensures { (h : History) → StandsFor self.now h → result.now.kept ≡ records_of (accepted h) }
    {
        &self.records
    }

    /// The admin that owns the open scan.
    pub fn lock_owner(&self) -> Option<AdminNo>
        ensures { (h : History) → StandsFor self.now h → result ≡ owner_after h }
    {
        match &self.scan {
            Some(scan) => Some(scan.owner),
            None => None,
        }
    }

    /// Whether an admin runs.
    pub fn is_running(&self, admin: AdminNo) -> bool
        ensures { (h : History) → StandsFor self.now h → result ≡ runs (accepted h) admin }
    {
        self.nodes[admin.get() as usize].running
    }

    /// The tickets that wait in the ring of an admin, in sixty slots.
    pub fn ring(&self, admin: AdminNo) -> &TimeRing
        ensures { (h : History) → StandsFor self.now h → result.now.slots ≡ ring_of (accepted h) admin }
    {
        &self.nodes[admin.get() as usize].ring
    }

    /// The logs that wait in the two pools of an admin, and the counts of its sendings.
    pub fn pool(&self, admin: AdminNo) -> &Pools
        ensures { (h : History) → StandsFor self.now h → result.now.kept ≡ queues_of (accepted h) admin }
    {
        &self.nodes[admin.get() as usize].pools
    }
}
