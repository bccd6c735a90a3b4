//! What happens to a cluster and to an executor: events, their replies and their refusals.
#![tactic(auto)]

pub mod cluster;
pub mod executor;
pub mod opened;
pub mod order;
pub mod report;
pub mod shown_log;

pub use cluster::{ClusterEvent, ClusterRefusal, ClusterReply};
pub use executor::{
    ExecutorEvent, ExecutorRefusal, ExecutorReply, FinishCode, PolledRun, ReadLines,
};
pub use opened::{FiredChild, FiredTicket, Opened};
pub use order::Order;
pub use report::Report;
pub use shown_log::ShownLog;
