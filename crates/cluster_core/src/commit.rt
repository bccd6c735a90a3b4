//! What a prepared event changes beside the rows.
ghost use Rattle.std.specs.Prelude.{◌≡◌};
ghost use Rattle.cluster_core.specs.Kept.{kept_of};
ghost use Rattle.cluster_plan.specs.Commits.{node_changed};
ghost use Rattle.cluster_core.specs.Room.{HasRoomFor};

use super::cluster::Cluster;
use super::nodes::{fire_at, start_at, step_at, stop_at, stop_each, turn_at};
use super::sendings::{forget_at, put_taken, send_at, take_at};
use super::steps::{close_of, step_on};
use cluster_plan::NodeChange;
use rising_rows::take;

impl Cluster {
    /// Changes the scan, the taken logs, and what is kept of the admins.
    pub(crate) fn change_node(&mut self, node: NodeChange)
        requires { HasRoomFor self.old node }
        ensures kept { kept_of self.new ≡ node_changed node (kept_of self.old) }
        ensures records { self.new.records ≡ self.old.records }
    {
        match node {
            NodeChange::Nothing => {}
            NodeChange::Starts(admin) => start_at(&mut self.nodes, admin),
            NodeChange::Stops(admin) => {
                close_of(&mut self.scan, admin);
                forget_at(&mut self.taken, admin);
                stop_at(self.alloc, &mut self.nodes, admin);
            }
            NodeChange::StopsAll => {
                self.scan = None;
                self.taken.clear();
                stop_each(self.alloc, &mut self.nodes);
            }
            NodeChange::Begins(scan) => self.scan = Some(scan),
            NodeChange::Steps(admin, put, logs) => {
                step_on(&mut self.scan);
                step_at(&mut self.nodes, admin, put, &logs);
            }
            NodeChange::Turns(admin, second, logs) => {
                turn_at(&mut self.nodes, admin, second, &logs);
            }
            NodeChange::Fires(admin, logs) => fire_at(&mut self.nodes, admin, &logs),
            NodeChange::Takes(admin, pool, taken, pick) => {
                put_taken(&mut self.taken, taken);
                take_at(&mut self.nodes, admin, pool, pick);
            }
            NodeChange::Sends {
                admin,
                log,
                job,
                start,
                end,
            } => {
                take(&mut self.taken, log.get());
                send_at(&mut self.nodes, admin, job, start, end);
            }
        }
    }
}
