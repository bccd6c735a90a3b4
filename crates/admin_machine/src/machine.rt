//! The cluster of a centre as a machine that threads share, over the keeper of its rows.
ghost use Rattle.cluster_history.specs.Runs.{IsWithin};

use crate::save::{AdminRefusal, save_changes};
use cluster_core::Cluster;
use cluster_history::Settings;
use job_events::{ClusterEvent, ClusterReply};
use job_records::{Group, Job, LastIds, Log, RegistryRow};
use job_values::Seq;
use record_keeper::Keeper;
use std::marker::Model;
use turn_lock::Machine;

/// The settings, the rows and the last ids that a machine began with. No value of it is made.
pub struct AdminOpening {
    pub settings: Settings,
    pub groups: Seq<Group>,
    pub jobs: Seq<Job>,
    pub logs: Seq<Log>,
    pub registry: Seq<RegistryRow>,
    pub last: LastIds,
}

/// A cluster and the keeper of its rows, whose entries are its events with their replies. An event
/// that was refused for memory or by the keeper is no entry.
#[derive(Drop)]
pub struct AdminMachine<K: Keeper> {
    pub(crate) cluster: Cluster,
    pub(crate) keeper: K,
}

impl<K: Keeper> Model for AdminMachine<K> {
    ghost use Rattle.cluster_core.specs.Kept.{kept_of};
    ghost use Rattle.admin_machine.specs.Views.{MachineView, Holds};

    ghost Value = { MachineView K };

    ghost view = { λ m. record { cluster = m.cluster; keeper = m.keeper } };

    ghost invariant = { λ m. Holds (K.seen m.keeper).tables (kept_of m.cluster).tables };
}

impl<K: Keeper> AdminMachine<K> {
    ghost use Rattle.std.specs.Prelude.{◌≡◌, true, IfOk, OnErr};
    ghost use Rattle.cluster_history.specs.History.{is_refusal};
    ghost use Rattle.cluster_core.specs.Kept.{kept_of};
    ghost use Rattle.cluster_core.specs.Stands.{Answers};
    ghost use Rattle.admin_machine.specs.Refusals.{IsCounted};
    ghost use Rattle.admin_machine.specs.Views.{Holds};

    /// The cluster. What the keeper holds are its rows, at any time.
    pub fn cluster(&self) -> &Cluster
        ensures value { result.now ≡ self.now.cluster }
        ensures rows { Holds (K.seen self.now.keeper).tables (kept_of self.now.cluster).tables }
    {
        &self.cluster
    }

    /// The keeper. The cluster is gone.
    pub fn into_keeper(self) -> K
        ensures { result ≡ self.keeper }
    {
        let AdminMachine { cluster: _, keeper } = self;
        keeper
    }

    /// Acts an event and replies to it, with its changes of the rows saved first. Refused, it leaves
    /// the rows, the cluster and what the keeper holds as they were.
    pub fn act(&mut self, event: &ClusterEvent) -> Result<ClusterReply, AdminRefusal>
        ensures answers { IfOk result (λ reply. Answers self.old.cluster event.now reply self.new.cluster) }
        ensures left { OnErr result (kept_of self.new.cluster ≡ kept_of self.old.cluster) }
        ensures held { OnErr result ((K.seen self.new.keeper).tables ≡ (K.seen self.old.keeper).tables) }
        ensures rows { Holds (K.seen self.new.keeper).tables (kept_of self.new.cluster).tables }
        ensures counted { IsCounted (K.seen self.old.keeper).faults (K.seen self.new.keeper).faults result }
        ensures spared { IfOk result (λ reply. is_refusal reply ≡ true → self.new.keeper ≡ self.old.keeper) }
    {
        let Ok(prepared) = self.cluster.prepare(event) else {
            return Err(AdminRefusal::Memory);
        };
        save_changes(&mut self.keeper, prepared.changes())?;
        Ok(self.cluster.commit(prepared))
    }
}

/// An admin that an event names is one of those that there are.
fn read_admin(event: &ClusterEvent)
    ensures { IsWithin event.now }
{
    if let ClusterEvent::NodeStart(admin) = event {
        let _ = admin.get();
    }
}

impl<K: Keeper> Machine for AdminMachine<K> {
    ghost use Rattle.std.specs.Prelude.{◌≡◌, List, [], ◌∷◌, ◌++◌, true, IfOk, IfErr, OnErr};
    ghost use Rattle.cluster_history.specs.History.{is_refusal};
    ghost use Rattle.cluster_core.specs.Kept.{kept_of};
    ghost use Rattle.cluster_core.specs.Stands.{Answers};
    ghost use Rattle.admin_machine.specs.Refusals.{is_want, Refuses, IsCounted};
    ghost use Rattle.admin_machine.specs.Standing.{Entry, IsLegalList, Stands, opening_in};
    ghost use Rattle.admin_machine.specs.Views.{Holds};
    ghost use Rattle.admin_machine.specs.declared.machine.AdminOpening.{AdminOpening};

    type Event = ClusterEvent;

    type Reply = ClusterReply;

    type Refused = AdminRefusal;

    type Opening = AdminOpening;

    ghost opening = { λ m. opening_in m.cluster };

    ghost stands = { λ o log m. Stands (K.seen m.keeper).tables o log m.cluster };

    ghost legal = { IsLegalList };

    ghost refuses = { Refuses };

    ghost is_want = { is_want };

    /// Acts an event, and says all that `act` does.
    fn step(&mut self, event: &ClusterEvent) -> Result<ClusterReply, AdminRefusal>
        ensures done { (o : AdminOpening) (log : List Entry) → Stands (K.seen self.old.keeper).tables o log self.old.cluster
            → IfOk result (λ r. Stands (K.seen self.new.keeper).tables o (log ++ (event.now, r) ∷ []) self.new.cluster) }
        ensures refused { (o : AdminOpening) (log : List Entry) → Stands (K.seen self.old.keeper).tables o log self.old.cluster
            → IfErr result (λ x. Stands (K.seen self.new.keeper).tables o log self.new.cluster × Refuses o log event.now x) }
        ensures answers { IfOk result (λ reply. Answers self.old.cluster event.now reply self.new.cluster) }
        ensures left { OnErr result (kept_of self.new.cluster ≡ kept_of self.old.cluster) }
        ensures held { OnErr result ((K.seen self.new.keeper).tables ≡ (K.seen self.old.keeper).tables) }
        ensures rows { Holds (K.seen self.new.keeper).tables (kept_of self.new.cluster).tables }
        ensures counted { IsCounted (K.seen self.old.keeper).faults (K.seen self.new.keeper).faults result }
        ensures spared { IfOk result (λ reply. is_refusal reply ≡ true → self.new.keeper ≡ self.old.keeper) }
    {
        read_admin(event);
        self.act(event)
    }

    fn is_memory(refused: &AdminRefusal) -> bool {
        match refused {
            AdminRefusal::Memory => true,
            AdminRefusal::KeeperFault {
                before: _,
                after: _,
            } => false,
        }
    }

    ghost stands_legally = { λ o log m h. h.legal };
}
