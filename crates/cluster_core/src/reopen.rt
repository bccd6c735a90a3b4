//! The opening of a cluster over records that were kept.
ghost use Rattle.std.specs.Prelude.{◌≡◌, IfOk};
ghost use Rattle.job_records.specs.Changes.{applied_all, AreAllowed};
ghost use Rattle.cluster_history.specs.History.{Begin};
ghost use Rattle.node_plans.specs.Endings.{unsent_endings, unsent_ended};
ghost use Rattle.cluster_core.specs.Kept.{kept_of};
ghost use Rattle.cluster_core.specs.Stands.{StandsFor};
ghost use Rattle.cluster_core.specs.Reopened.{opening_over, GoesOn};

use super::cluster::Cluster;
use super::nodes::idle_nodes;
use cluster_history::Settings;
use job_records::{Change, Records};
use job_values::{NoMemory, Seq};
use node_plans::end_unsent;
use std::alloc::Global;

impl Cluster {
    /// A cluster over records that another left, and what it changed of them: no admin runs, and each
    /// log without a trigger code is ended, since no pool has it. It is the other cluster after the
    /// stop of every admin.
    pub fn reopen(
        alloc: Global,
        settings: Settings,
        records: Records,
    ) -> Result<(Cluster, Seq<Change>), NoMemory>
        ensures changes { IfOk result (λ r. r.1 ≡ unsent_endings records.kept.logs) }
        ensures allowed { IfOk result (λ r. AreAllowed records.kept r.1) }
        ensures rows { IfOk result (λ r. (kept_of r.0).tables ≡ applied_all records.kept r.1) }
        ensures ended { IfOk result (λ r. (kept_of r.0).tables ≡ unsent_ended records.kept) }
        ensures opens { IfOk result (λ r. StandsFor r.0 (Begin (opening_over settings (kept_of r.0).tables))) }
        ensures goes_on { IfOk result (λ r. GoesOn settings records.kept r.0) }
    {
        let nodes = idle_nodes(alloc)?;
        let changes = end_unsent(alloc, &records)?;
        let told = end_unsent(alloc, &records)?;
        let mut records = records;
        records.reserve(&changes)?;
        records.apply(changes);
        let cluster = Cluster {
            alloc,
            settings,
            records,
            scan: None,
            taken: Vec::new(alloc),
            nodes,
        };
        Ok((cluster, told))
    }
}
