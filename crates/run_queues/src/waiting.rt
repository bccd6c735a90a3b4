//! How many of the runs that wait each log has, by log id.
ghost use Rattle.std.specs.Prelude.{◌≡◌, ◌+◌, ◌-◌, ◌≤◌, ◌==◌, ℕ, nat_eq, nat_lt, count_by, if◌then◌else◌};
ghost use Rattle.indexmap.specs.IndexMap.{spare, IsUnique};
ghost use Rattle.run_queues.specs.Order.{lane_of, first_of};
ghost use Rattle.run_queues.specs.Waiting.{times, one_of};

use super::lanes::first_run;
use indexmap::IndexMap;
use job_lane::{Lane, QueuedRun};
use job_values::{JobId, LogId};
use std::collections::VecDeque;

/// How many runs of the log wait.
fn count(logs: &IndexMap<u64, u64>, log: LogId) -> u64
    ensures { result ≡ times log logs.now.entries }
{
    match logs.get(&log.get()) {
        None => 0,
        Some(times) => *times,
    }
}

/// Whether a run of the log waits.
pub(crate) fn some_waits(logs: &IndexMap<u64, u64>, log: LogId) -> bool
    ensures { result ≡ nat_lt 0 (times log logs.now.entries) }
{
    count(logs, log) > 0
}

/// One more run of the log waits, at most this many in all. There is room for it.
pub(crate) fn add(logs: &mut IndexMap<u64, u64>, log: LogId, most: u64)
    requires room { 1 ≤ spare logs.old }
    requires fits { times log logs.old.entries + 1 ≤ most }
    ensures times { (l : ℕ) → times l logs.new.entries ≡ times l logs.old.entries + (if log == l then 1 else 0) }
    ensures once { IsUnique nat_eq logs.new }
{
    let more = count(logs, log) + 1;
    let _put = logs.insert(log.get(), more);
}

/// One run of the log waits no more.
fn take(logs: &mut IndexMap<u64, u64>, log: LogId)
    requires { IsUnique nat_eq logs.old }
    ensures times { (l : ℕ) → times l logs.new.entries ≡ times l logs.old.entries - (if log == l then 1 else 0) }
    ensures room { spare logs.old ≤ spare logs.new }
    ensures once { IsUnique nat_eq logs.new }
{
    let left = count(logs, log).saturating_sub(1);
    if left == 0 {
        let _gone = logs.swap_remove(&log.get());
    } else if let Some(times) = logs.get_mut(&log.get()) {
        *times = left;
    }
}

/// The first run of a job waits no more, if there is one.
pub(crate) fn take_first(logs: &mut IndexMap<u64, u64>, lanes: &IndexMap<u32, Lane>, job: JobId)
    requires { IsUnique nat_eq logs.old }
    ensures times { (l : ℕ) → times l logs.new.entries ≡ times l logs.old.entries - one_of l (first_of (lane_of job lanes.now.entries).queue) }
    ensures once { IsUnique nat_eq logs.new }
{
    if let Some(run) = first_run(lanes, job) {
        take(logs, run.log);
    }
}

/// These runs wait no more.
fn take_runs(logs: &mut IndexMap<u64, u64>, queue: &VecDeque<QueuedRun>)
    requires { IsUnique nat_eq logs.old }
    ensures times { (l : ℕ) → times l logs.new.entries ≡ times l logs.old.entries - count_by (λ run. l == run.log) queue.now.items }
    ensures room { spare logs.old ≤ spare logs.new }
    ensures once { IsUnique nat_eq logs.new }
{
    for place in 0..queue.len() {
        if let Some(run) = queue.get(place) {
            take(logs, run.log);
        }
    }
}

/// The runs of a job wait no more.
pub(crate) fn take_all(logs: &mut IndexMap<u64, u64>, lanes: &IndexMap<u32, Lane>, job: JobId)
    requires { IsUnique nat_eq logs.old }
    ensures times { (l : ℕ) → times l logs.new.entries ≡ times l logs.old.entries - count_by (λ run. l == run.log) (lane_of job lanes.now.entries).queue }
    ensures room { spare logs.old ≤ spare logs.new }
    ensures once { IsUnique nat_eq logs.new }
{
    if let Some(lane) = lanes.get(&job.get()) {
        take_runs(logs, lane.queue());
    }
}
