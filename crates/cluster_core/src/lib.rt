//! The cluster of admins: one event changes it, and its reply is the one that the history of the
//! cluster defines. An event is prepared, which takes all memory that it needs, and then committed.
//! The laws of the cluster's histories are given on as `laws`.
#![tactic(auto)]

pub mod cluster;
mod commit;
mod counts;
mod nodes;
mod plan;
mod reopen;
mod room;
mod sendings;
mod steps;

pub use cluster::Cluster;
pub use cluster_laws::laws;
pub use cluster_plan::{Entering, NodeChange, Prepared};
