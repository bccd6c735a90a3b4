//! Work on the lanes of all jobs, by job number.
ghost use Rattle.std.specs.Prelude.{◌≡◌, ◌+◌, ◌≤◌, ◌==◌, ℕ, nat_eq, [], ◌∷◌, ◌++◌, None, IsTrue, find, length, map, OnOk, if◌then◌else◌};
ghost use Rattle.std.specs.List.{list_any};
ghost use Rattle.std.specs.Option.{option_map, option_copied};
ghost use Rattle.job_lane.specs.Runs.{ended_run, expired_run, without_runner};
ghost use Rattle.job_lane.specs.Lanes.{runs, front_of, queue_polled, put_started};
ghost use Rattle.indexmap.specs.IndexMap.{get, IsUnique};
ghost use Rattle.run_queues.specs.Order.{lane_of, first_of, some_in};

use super::front::Front;
use super::serving::Serving;
use indexmap::IndexMap;
use job_lane::{Lane, QueuedRun, RunnerRun};
use job_values::{JobId, LogId, Moment, NoMemory, RunnerNo};
use std::alloc::Global;

/// Whether a run of the job waits.
pub(crate) fn waits(lanes: &IndexMap<u32, Lane>, job: JobId) -> bool
    ensures { result ≡ some_in (lane_of job lanes.now.entries).queue }
{
    match lanes.get(&job.get()) {
        None => false,
        Some(lane) => !lane.queue().is_empty(),
    }
}

/// How many runs of the job wait.
pub(crate) fn waiting_len(lanes: &IndexMap<u32, Lane>, job: JobId) -> u64
    ensures { result ≡ length (lane_of job lanes.now.entries).queue }
{
    match lanes.get(&job.get()) {
        None => 0,
        Some(lane) => lane.queue().len() as u64,
    }
}

/// The first run of a job that waits.
pub(crate) fn first_run(lanes: &IndexMap<u32, Lane>, job: JobId) -> Option<&QueuedRun>
    ensures { option_copied result ≡ first_of (lane_of job lanes.now.entries).queue }
{
    match lanes.get(&job.get()) {
        None => None,
        Some(lane) => lane.queue().front(),
    }
}

/// Its front.
pub(crate) fn first_front(lanes: &IndexMap<u32, Lane>, job: JobId) -> Option<Front>
    ensures { result ≡ option_map (λ run. record { number = run.number; job = job }) (first_of (lane_of job lanes.now.entries).queue) }
{
    match first_run(lanes, job) {
        None => None,
        Some(run) => Some(Front {
            number: run.number,
            job,
        }),
    }
}

/// Whether a run of the job runs.
pub(crate) fn is_running(lanes: &IndexMap<u32, Lane>, job: JobId) -> bool
    ensures { result ≡ runs (lane_of job lanes.now.entries).on_runners }
{
    match lanes.get(&job.get()) {
        None => false,
        Some(lane) => lane.is_running(),
    }
}

/// The run of a runner in the lane of a job.
pub(crate) fn run_on(lanes: &IndexMap<u32, Lane>, job: JobId, runner: RunnerNo) -> Option<RunnerRun>
    ensures { result ≡ find (λ run. runner == run.runner) (lane_of job lanes.now.entries).on_runners }
{
    match lanes.get(&job.get()) {
        None => None,
        Some(lane) => lane.on(runner),
    }
}

/// Gives the first run of a job to a free runner, where no run of the job runs.
pub(crate) fn poll(lanes: &mut IndexMap<u32, Lane>, job: JobId, runner: RunnerNo, now: Moment)
    requires { find (λ run. runner == run.runner) (lane_of job lanes.old.entries).on_runners ≡ None }
    ensures queues { (j : ℕ) → (lane_of j lanes.new.entries).queue ≡ (if job == j then queue_polled (lane_of job lanes.old.entries).queue (lane_of job lanes.old.entries).on_runners else (lane_of j lanes.old.entries).queue) }
    ensures on_runners { (j : ℕ) → (lane_of j lanes.new.entries).on_runners ≡ (if job == j then put_started runner now (front_of (lane_of job lanes.old.entries).queue (lane_of job lanes.old.entries).on_runners) (lane_of job lanes.old.entries).on_runners else (lane_of j lanes.old.entries).on_runners) }
    ensures once { IsUnique nat_eq lanes.new }
{
    match lanes.get_mut(&job.get()) {
        None => {}
        Some(lane) => {
            let _given = lane.poll(runner, now);
        }
    }
}

/// Takes the run of a runner out of the lane of a job.
pub(crate) fn finish(lanes: &mut IndexMap<u32, Lane>, job: JobId, runner: RunnerNo)
    ensures queues { (j : ℕ) → (lane_of j lanes.new.entries).queue ≡ (lane_of j lanes.old.entries).queue }
    ensures on_runners { (j : ℕ) → (lane_of j lanes.new.entries).on_runners ≡ (if job == j then without_runner runner (lane_of job lanes.old.entries).on_runners else (lane_of j lanes.old.entries).on_runners) }
    ensures once { IsUnique nat_eq lanes.new }
{
    match lanes.get_mut(&job.get()) {
        None => {}
        Some(lane) => {
            let _left = lane.finish(runner);
        }
    }
}

/// Empties the queue of a job, and ends the run of it that runs.
pub(crate) fn kill(lanes: &mut IndexMap<u32, Lane>, job: JobId)
    ensures queues { (j : ℕ) → (lane_of j lanes.new.entries).queue ≡ (if job == j then [] else (lane_of j lanes.old.entries).queue) }
    ensures on_runners { (j : ℕ) → (lane_of j lanes.new.entries).on_runners ≡ (if job == j then map ended_run (lane_of job lanes.old.entries).on_runners else (lane_of j lanes.old.entries).on_runners) }
    ensures room { (j : ℕ) → (lane_of j lanes.old.entries).room ≤ (lane_of j lanes.new.entries).room }
    ensures once { IsUnique nat_eq lanes.new }
{
    match lanes.get_mut(&job.get()) {
        None => {}
        Some(lane) => {
            let _waited = lane.kill();
        }
    }
}

/// Gives the late runs of a job their results.
pub(crate) fn expire(lanes: &mut IndexMap<u32, Lane>, job: JobId, now: Moment)
    ensures queues { (j : ℕ) → (lane_of j lanes.new.entries).queue ≡ (lane_of j lanes.old.entries).queue }
    ensures on_runners { (j : ℕ) → (lane_of j lanes.new.entries).on_runners ≡ (if job == j then map (expired_run now) (lane_of job lanes.old.entries).on_runners else (lane_of j lanes.old.entries).on_runners) }
    ensures once { IsUnique nat_eq lanes.new }
{
    match lanes.get_mut(&job.get()) {
        None => {}
        Some(lane) => {
            let _late = lane.expire(now);
        }
    }
}

/// Gives the late runs of the jobs that are served their results.
pub(crate) fn expire_served(lanes: &mut IndexMap<u32, Lane>, serving: &[Serving], now: Moment)
    requires { IsUnique nat_eq lanes.old }
    ensures queues { (j : ℕ) → (lane_of j lanes.new.entries).queue ≡ (lane_of j lanes.old.entries).queue }
    ensures on_runners { (j : ℕ) → (lane_of j lanes.new.entries).on_runners ≡ (if list_any (λ s. s.job == j) serving.now then map (expired_run now) (lane_of j lanes.old.entries).on_runners else (lane_of j lanes.old.entries).on_runners) }
    ensures once { IsUnique nat_eq lanes.new }
{
    for served in serving {
        expire(lanes, served.job, now);
    }
}

/// Puts a run behind those of its job. There is room for it.
pub(crate) fn push(lanes: &mut IndexMap<u32, Lane>, job: JobId, new: QueuedRun)
    requires { 1 ≤ (lane_of job lanes.old.entries).room }
    ensures queues { (j : ℕ) → (lane_of j lanes.new.entries).queue ≡ (if job == j then (lane_of job lanes.old.entries).queue ++ new ∷ [] else (lane_of j lanes.old.entries).queue) }
    ensures on_runners { (j : ℕ) → (lane_of j lanes.new.entries).on_runners ≡ (lane_of j lanes.old.entries).on_runners }
    ensures once { IsUnique nat_eq lanes.new }
{
    match lanes.get_mut(&job.get()) {
        None => drop(new),
        Some(lane) => lane.offer(new),
    }
}

/// Whether a lane has no run at all.
fn is_idle(lanes: &IndexMap<u32, Lane>, job: JobId) -> bool
    ensures queue { IsTrue result → (lane_of job lanes.now.entries).queue ≡ [] }
    ensures on_runners { IsTrue result → (lane_of job lanes.now.entries).on_runners ≡ [] }
{
    match lanes.get(&job.get()) {
        None => true,
        Some(lane) => lane.queue().is_empty() && lane.on_runners().is_empty(),
    }
}

/// Lets the lane of a job go, if it has no run.
pub(crate) fn forget(lanes: &mut IndexMap<u32, Lane>, job: JobId)
    requires { IsUnique nat_eq lanes.old }
    ensures queues { (j : ℕ) → (lane_of j lanes.new.entries).queue ≡ (lane_of j lanes.old.entries).queue }
    ensures on_runners { (j : ℕ) → (lane_of j lanes.new.entries).on_runners ≡ (lane_of j lanes.old.entries).on_runners }
    ensures once { IsUnique nat_eq lanes.new }
{
    if is_idle(lanes, job) {
        let _gone = lanes.swap_remove(&job.get());
    }
}

/// Puts the lane of a job that has none.
fn add_lane(lanes: &mut IndexMap<u32, Lane>, job: JobId, lane: Lane) -> Result<(), NoMemory>
    requires none { get nat_eq lanes.old job ≡ None }
    requires queue { lane.queue ≡ [] }
    requires on_runners { lane.on_runners ≡ [] }
    ensures room { OnOk result ((lane_of job lanes.new.entries).room ≡ lane.room) }
    ensures queues { (j : ℕ) → (lane_of j lanes.new.entries).queue ≡ (lane_of j lanes.old.entries).queue }
    ensures on_runners { (j : ℕ) → (lane_of j lanes.new.entries).on_runners ≡ (lane_of j lanes.old.entries).on_runners }
    ensures once { IsUnique nat_eq lanes.new }
{
    match lanes.insert(job.get(), lane) {
        Ok(_) => Ok(()),
        Err(_) => Err(NoMemory),
    }
}

/// Makes room for one more run of a job.
pub(crate) fn reserve(
    alloc: Global,
    lanes: &mut IndexMap<u32, Lane>,
    job: JobId,
) -> Result<(), NoMemory>
    ensures room { OnOk result (1 ≤ (lane_of job lanes.new.entries).room) }
    ensures queues { (j : ℕ) → (lane_of j lanes.new.entries).queue ≡ (lane_of j lanes.old.entries).queue }
    ensures on_runners { (j : ℕ) → (lane_of j lanes.new.entries).on_runners ≡ (lane_of j lanes.old.entries).on_runners }
    ensures once { IsUnique nat_eq lanes.new }
{
    match lanes.get_mut(&job.get()) {
        Some(lane) => lane.reserve(),
        None => {
            let mut lane = Lane::new(alloc, job);
            lane.reserve()?;
            add_lane(lanes, job, lane)
        }
    }
}
