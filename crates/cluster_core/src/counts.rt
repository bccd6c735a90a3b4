//! What is counted.
ghost use Rattle.std.specs.Prelude.{◌≡◌, ◌<◌, ◌^◌, length, min, sum_by, count_by};
ghost use Rattle.time_ring.specs.Ring.{ticket_count};
ghost use Rattle.cluster_history.specs.History.{History};
ghost use Rattle.cluster_history.specs.Settling.{is_failed, is_settled};
ghost use Rattle.cluster_history.specs.Runs.{report_of};
ghost use Rattle.cluster_plan.specs.Kept.{logs_in};
ghost use Rattle.cluster_core.specs.Stands.{StandsFor};

use super::cluster::Cluster;
use cluster_plan::Node;
use job_events::Report;
use job_records::Log;
use job_values::PoolKind;
use job_values::limits::SUCCESS;
use trigger_pool::Pools;

/// Whether a log is neither under way nor settled with success.
pub fn failed(log: &Log) -> bool
    ensures { result ≡ is_failed log.now }
{
    let under_way = (log.trigger_code == 0 || log.trigger_code == SUCCESS) && log.result_code == 0;
    !under_way && log.result_code != SUCCESS
}

/// Whether a log has a result.
pub fn settled(log: &Log) -> bool
    ensures { result ≡ is_settled log.now }
{
    log.result_code != 0
}

/// How many logs have a result.
fn count_settled(logs: &[Log]) -> u64
    ensures { result ≡ count_by is_settled logs.now }
{
    logs.iter().filter(|log| settled(log)).count() as u64
}

/// How many logs are failed.
fn count_failed(logs: &[Log]) -> u64
    ensures { result ≡ count_by is_failed logs.now }
{
    logs.iter().filter(|log| failed(log)).count() as u64
}

/// How many tickets wait in all rings.
fn count_waiting(nodes: &Vec<Node>) -> u64
    ensures { result ≡ min (sum_by (λ one. ticket_count one.ring.slots) nodes.now.items) (u64.MAX) }
{
    let mut waiting: u64 = 0;
    for node in nodes {
        waiting = waiting.saturating_add(node.ring.count());
    }
    waiting
}

/// How many logs are in the pools of an admin.
fn count_logs(pools: &Pools) -> u64
    requires { length (logs_in pools.now.kept) < 2 ^ 64 }
    ensures { result ≡ length (logs_in pools.now.kept) }
{
    let fast = pools.length(PoolKind::Fast) as u64;
    let slow = pools.length(PoolKind::Slow) as u64;
    fast + slow
}

/// How many logs are in all pools.
fn count_queued(nodes: &Vec<Node>) -> u64
    requires { sum_by (λ one. length (logs_in one.pools.kept)) nodes.now.items < 2 ^ 64 }
    ensures { result ≡ sum_by (λ one. length (logs_in one.pools.kept)) nodes.now.items }
{
    let mut queued = 0;
    for node in nodes {
        queued += count_logs(&node.pools);
    }
    queued
}

impl Cluster {
    /// The numbers of jobs, logs, settled and failed logs, waiting tickets and queued logs. It leaves
    /// the counts of lines and of held ids at 0.
    pub fn counts(&self) -> Report
        ensures { (h : History) → StandsFor self.now h → result ≡ report_of h }
    {
        let logs = self.records.logs();
        Report {
            entries: 0,
            jobs: self.records.jobs().len() as u64,
            logs: logs.len() as u64,
            settled: count_settled(logs),
            failed: count_failed(logs),
            waiting: count_waiting(&self.nodes),
            queued: count_queued(&self.nodes),
            held: 0,
        }
    }
}
