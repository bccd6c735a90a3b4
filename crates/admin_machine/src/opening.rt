//! How a machine opens over what its keeper holds.
ghost use Rattle.std.specs.Prelude.{◌≡◌, ◌≤◌, None, [], IfOk, IfErr, OnOk, IfSome};
ghost use Rattle.std.specs.Option.{option_map};
ghost use Rattle.cluster_core.specs.Kept.{kept_of};
ghost use Rattle.node_plans.specs.Endings.{unsent_ended};
ghost use Rattle.admin_machine.specs.Opening.{IsLeft, GoesOnFrom};
ghost use Rattle.admin_machine.specs.Standing.{Stands, opening_in};
ghost use Rattle.admin_machine.specs.Views.{Holds};

use crate::machine::AdminMachine;
use crate::save::{AdminRefusal, save_changes};
use cluster_core::Cluster;
use cluster_history::Settings;
use job_records::Records;
use record_keeper::{KeepError, Keeper, Loaded};
use std::alloc::Global;

/// Why a machine did not open.
#[derive(Clone, Copy, Debug, PartialEq, Eq)]
pub enum LoadFault {
    /// Memory ran out.
    Memory,
    /// The keeper failed. The count of its faults rose.
    Keeper,
    /// The tables have a version that the keeper does not know.
    Version { found: u64 },
}

/// The records that a keeper holds; those without rows where nothing was ever saved.
fn load_records<K: Keeper>(alloc: Global, keeper: &mut K) -> Result<Records, LoadFault>
    ensures told { IfOk result (λ records. Holds (K.seen keeper.old).tables records.kept) }
    ensures tables { (K.seen keeper.new).tables ≡ (K.seen keeper.old).tables }
    ensures version { OnOk result ((K.seen keeper.new).version ≡ None) }
    ensures later { (K.seen keeper.old).faults ≤ (K.seen keeper.new).faults }
    ensures left { IfErr result (IsLeft (K.seen keeper.old) (K.seen keeper.new)) }
{
    match keeper.load() {
        Ok(Loaded::Empty) => Ok(Records::new(alloc)),
        Ok(Loaded::Tables(records)) => Ok(records),
        Ok(Loaded::Version(found)) => Err(LoadFault::Version { found }),
        Err(KeepError::Failed) => Err(LoadFault::Keeper),
        Err(KeepError::NoMemory) => Err(LoadFault::Memory),
    }
}

/// The cluster over what a keeper holds, with the changes of its opening saved.
fn open_cluster<K: Keeper>(
    alloc: Global,
    settings: Settings,
    keeper: &mut K,
) -> Result<Cluster, LoadFault>
    ensures opens { IfOk result (λ cluster. Stands (K.seen keeper.new).tables (opening_in cluster) [] cluster) }
    ensures settings { IfOk result (λ cluster. cluster.settings ≡ settings) }
    ensures ended { IfOk result (λ cluster. IfSome (K.seen keeper.old).tables (λ t. (kept_of cluster).tables ≡ unsent_ended t)) }
    ensures held { OnOk result ((K.seen keeper.new).tables ≡ option_map unsent_ended (K.seen keeper.old).tables) }
    ensures version { OnOk result ((K.seen keeper.new).version ≡ None) }
    ensures goes_on { IfOk result (GoesOnFrom (K.seen keeper.old).tables settings (K.seen keeper.new).tables) }
    ensures left { IfErr result (IsLeft (K.seen keeper.old) (K.seen keeper.new)) }
{
    let records = load_records(alloc, keeper)?;
    let Ok((cluster, changes)) = Cluster::reopen(alloc, settings, records) else {
        return Err(LoadFault::Memory);
    };
    match save_changes(keeper, &changes) {
        Ok(()) => Ok(cluster),
        Err(AdminRefusal::Memory) => Err(LoadFault::Memory),
        Err(
            AdminRefusal::KeeperFault {
                before: _,
                after: _,
            },
        ) => Err(LoadFault::Keeper),
    }
}

impl<K: Keeper> AdminMachine<K> {
    /// The machine over what a keeper holds, in which no admin runs. It is the machine whose rows
    /// they were after the stop of every admin: each log without a trigger code is ended, and that
    /// is saved. An `Err` gives the keeper back, which holds what it held.
    pub fn of_keeper(
        alloc: Global,
        settings: Settings,
        keeper: K,
    ) -> Result<AdminMachine<K>, (K, LoadFault)>
        ensures opens { IfOk result (λ m. Stands (K.seen m.keeper).tables (opening_in m.cluster) [] m.cluster) }
        ensures settings { IfOk result (λ m. m.cluster.settings ≡ settings) }
        ensures ended { IfOk result (λ m. IfSome (K.seen keeper).tables (λ t. (kept_of m.cluster).tables ≡ unsent_ended t)) }
        ensures held { IfOk result (λ m. (K.seen m.keeper).tables ≡ option_map unsent_ended (K.seen keeper).tables) }
        ensures version { IfOk result (λ m. (K.seen m.keeper).version ≡ None) }
        ensures goes_on { IfOk result (λ m. GoesOnFrom (K.seen keeper).tables settings (K.seen m.keeper).tables m.cluster) }
        ensures left { IfErr result (λ e. IsLeft (K.seen keeper) (K.seen e.0) e.1) }
    {
        let mut keeper = keeper;
        match open_cluster(alloc, settings, &mut keeper) {
            Ok(cluster) => Ok(AdminMachine { cluster, keeper }),
            Err(fault) => Err((keeper, fault)),
        }
    }
}
