//! The memory that a planned event needs.
ghost use Rattle.std.specs.Prelude.{◌≡◌, OnOk};
ghost use Rattle.job_records.specs.Changes.{AreAllowed};
ghost use Rattle.cluster_core.specs.Kept.{kept_of};
ghost use Rattle.cluster_core.specs.Room.{CanCommit};

use super::cluster::Cluster;
use super::nodes::reserve_at;
use super::sendings::{reserve_count, reserve_pick};
use cluster_plan::{NodeChange, Prepared};
use job_values::NoMemory;

impl Cluster {
    /// Makes room for what a planned event will change. It changes nothing that is kept.
    pub(crate) fn make_room(&mut self, prepared: &Prepared) -> Result<(), NoMemory>
        ensures can { OnOk result (AreAllowed self.old.records.kept prepared.now.changes → CanCommit self.new prepared.now) }
        ensures same { kept_of self.new ≡ kept_of self.old }
    {
        self.records.reserve(prepared.changes())?;
        match prepared.node() {
            NodeChange::Steps(admin, put, logs) => {
                reserve_at(&mut self.nodes, *admin, put, logs.len())
            }
            NodeChange::Turns(admin, _, logs) => {
                reserve_at(&mut self.nodes, *admin, &None, logs.len())
            }
            NodeChange::Fires(admin, logs) => {
                reserve_at(&mut self.nodes, *admin, &None, logs.len())
            }
            NodeChange::Takes(admin, _, _, pick) => {
                self.taken.reserve(1).map_err(|_| NoMemory)?;
                reserve_pick(&mut self.nodes, *admin, pick)
            }
            NodeChange::Sends { admin, .. } => reserve_count(&mut self.nodes, *admin),
            _ => Ok(()),
        }
    }
}
