//! The runs of an executor, seen as one list in order of acceptance and one in order of the runners.
ghost use Rattle.std.specs.Prelude.{◌≡◌, ℕ, ◌+◌, ◌<◌, ◌≤◌, ◌==◌, not, [], ◌∷◌, ◌++◌, length, map, filter, IfOk, OnOk, MatchOption, None, Some};
ghost use Rattle.std.specs.List.{list_any};
ghost use Rattle.job_lane.specs.Runs.{without_first};
ghost use Rattle.executor_history.specs.Runs.{is_queued_of, is_ready, ready_front, job_runs, is_on, run_on, ended_of, expired_of, put_working};
ghost use Rattle.executor_history.specs.Past.{is_in_queue, is_on_runner};
ghost use Rattle.executor_history.specs.Replies.{queued_of};
ghost use Rattle.run_queues.specs.Order.{queued_in, HasRoom};
ghost use Rattle.run_queues.specs.Serving.{served_run, working_as, is_of_log, by_runner};

use super::front::Front;
use super::serving::{Serving, leave, serve, served};
use super::{lanes, ready, waiting};
use executor_history::{Queued, Working};
use indexmap::IndexMap;
use job_lane::{Lane, QueuedRun};
use job_values::{JobId, LogId, Moment, NoMemory, RunnerNo};
use std::alloc::Global;
use std::collections::VecDeque;
use std::marker::Model;

/// The runs of an executor: a lane for each job, found by the job's number, the first run of each queue in order of
/// acceptance, the job that each runner serves, and how many runs of each log wait.
#[derive(Drop)]
pub struct Queues {
    last: u64,
    lanes: IndexMap<u32, Lane>,
    fronts: VecDeque<Front>,
    serving: Vec<Serving>,
    logs: IndexMap<u64, u64>,
}

impl Model for Queues {
    ghost use Rattle.std.specs.Prelude.{◌-◌, ◌≤◌, map, vec_len, vec_capacity};
    ghost use Rattle.std.specs.VecDeque.{deque_len, deque_capacity};
    ghost use Rattle.run_queues.specs.Order.{in_order, Hold, QueuesView};
    ghost use Rattle.run_queues.specs.Serving.{by_runner, Serve};
    ghost use Rattle.run_queues.specs.Waiting.{Counts};
    ghost use Rattle.indexmap.specs.IndexMap.{spare};

    ghost Value = { QueuesView };

    ghost view = { λ q. record {
      runs = in_order q.lanes.entries;
      on_runners = by_runner q.lanes.entries q.serving.items;
      last = q.last;
      rooms = map (λ e. (e.0, e.1.room)) q.lanes.entries;
      fronts = deque_capacity q.fronts - deque_len q.fronts;
      runners = vec_capacity q.serving - vec_len q.serving;
      logs = spare q.logs;
    } };

    ghost invariant = { λ q. Hold q.lanes.entries q.fronts.items (in_order q.lanes.entries) q.last × Serve q.lanes.entries q.serving.items (by_runner q.lanes.entries q.serving.items) × (deque_len q.fronts ≤ deque_capacity q.fronts) × Counts q.logs.entries (in_order q.lanes.entries) };
}

impl Queues {
    /// No run. It takes no memory.
    pub fn new(alloc: Global) -> Queues
        ensures runs { result.runs ≡ [] }
        ensures on_runners { result.on_runners ≡ [] }
        ensures last { result.last ≡ 0 }
    {
        Queues {
            last: 0,
            lanes: IndexMap::new(alloc),
            fronts: VecDeque::new(alloc),
            serving: Vec::new(alloc),
            logs: IndexMap::new(alloc),
        }
    }

    /// The number of the last run that was put.
    pub fn last(&self) -> u64
        ensures { result ≡ self.now.last }
    {
        self.last
    }

    /// Whether a run of the job waits.
    pub fn has(&self, job: JobId) -> bool
        ensures { result ≡ list_any (is_queued_of job) self.now.runs }
    {
        lanes::waits(&self.lanes, job)
    }

    /// Whether a run of the job runs.
    pub fn is_running(&self, job: JobId) -> bool
        ensures { result ≡ job_runs job self.now.on_runners }
    {
        lanes::is_running(&self.lanes, job)
    }

    /// How many runs of the job wait.
    pub fn len_of(&self, job: JobId) -> u64
        ensures { result ≡ queued_of job self.now.runs }
    {
        lanes::waiting_len(&self.lanes, job)
    }

    /// The runs of the job that wait, in order of acceptance.
    pub fn of_job(&self, job: JobId) -> Option<&VecDeque<QueuedRun>>
        ensures { MatchOption result (filter (is_queued_of job) self.now.runs ≡ []) (λ queue. filter (is_queued_of job) self.now.runs ≡ map (queued_in job) queue.now.items) }
    {
        match self.lanes.get(&job.get()) {
            None => None,
            Some(lane) => Some(lane.queue()),
        }
    }

    /// Whether a run of the log waits.
    pub fn has_log(&self, log: LogId) -> bool
        ensures { result ≡ is_in_queue log self.now.runs }
    {
        waiting::some_waits(&self.logs, log)
    }

    /// The run that a runner has.
    pub fn on(&self, runner: RunnerNo) -> Option<Working>
        ensures { result ≡ run_on runner self.now.on_runners }
    {
        match served(self.serving.as_slice(), runner) {
            None => None,
            Some(served) => working_of(&self.lanes, &served),
        }
    }

    /// Whether a run of the log is on a runner.
    pub fn has_on(&self, log: LogId) -> bool
        ensures { result ≡ is_on_runner log self.now.on_runners }
    {
        some_serves(&self.lanes, self.serving.as_slice(), log)
    }

    /// The runs that are on runners, in order of the runners.
    pub fn on_runners(&self, alloc: Global) -> Result<Vec<Working>, NoMemory>
        ensures { IfOk result (λ runs. runs.items ≡ self.now.on_runners) }
    {
        all_served(alloc, &self.lanes, self.serving.as_slice())
    }

    /// The ready front that was accepted first, with its job: the first run whose job does not run.
    pub fn front(&self) -> Option<(JobId, &QueuedRun)>
        ensures { MatchOption result (ready_front self.now.runs self.now.on_runners ≡ None) (λ front. ready_front self.now.runs self.now.on_runners ≡ Some (queued_in front.0 front.1.now)) }
    {
        match ready::ready_front(&self.fronts, &self.lanes) {
            None => None,
            Some(front) => match lanes::first_run(&self.lanes, front.job) {
                None => None,
                Some(run) => Some((front.job, run)),
            },
        }
    }

    /// Makes room for one more run of a job.
    pub fn reserve(&mut self, alloc: Global, job: JobId) -> Result<(), NoMemory>
        ensures runs { self.new.runs ≡ self.old.runs }
        ensures on_runners { self.new.on_runners ≡ self.old.on_runners }
        ensures last { self.new.last ≡ self.old.last }
        ensures room { OnOk result (HasRoom job self.new) }
    {
        self.fronts.reserve(1)?;
        self.logs.reserve(1)?;
        lanes::reserve(alloc, &mut self.lanes, job)
    }

    /// Makes room for one more run on a runner.
    pub fn reserve_runner(&mut self) -> Result<(), NoMemory>
        ensures runs { self.new.runs ≡ self.old.runs }
        ensures on_runners { self.new.on_runners ≡ self.old.on_runners }
        ensures last { self.new.last ≡ self.old.last }
        ensures room { OnOk result (1 ≤ self.new.runners) }
    {
        self.serving.reserve(1)?;
        Ok(())
    }

    /// Puts a run behind those that wait. It takes no memory.
    pub fn push(&mut self, new: Queued)
        requires later { self.old.last < new.run.number }
        requires room { HasRoom new.job self.old }
        ensures runs { self.new.runs ≡ self.old.runs ++ new ∷ [] }
        ensures on_runners { self.new.on_runners ≡ self.old.on_runners }
        ensures last { self.new.last ≡ new.run.number }
    {
        let Queued { job, run } = new;
        let number = run.number;
        waiting::add(&mut self.logs, run.log, number);
        let waits = lanes::waits(&self.lanes, job);
        self.last = number;
        ready::add(&mut self.fronts, Front { number, job }, waits);
        lanes::push(&mut self.lanes, job, run);
    }

    /// Takes the runs of a job that wait away, and ends the one that runs. It takes no memory.
    pub fn kill(&mut self, job: JobId)
        ensures runs { self.new.runs ≡ filter (λ q. not (is_queued_of job q)) self.old.runs }
        ensures on_runners { self.new.on_runners ≡ map (ended_of job) self.old.on_runners }
        ensures last { self.new.last ≡ self.old.last }
        ensures room { (j : ℕ) → HasRoom j self.old → HasRoom j self.new }
    {
        ready::take_first(&mut self.fronts, lanes::first_front(&self.lanes, job));
        waiting::take_all(&mut self.logs, &self.lanes, job);
        lanes::kill(&mut self.lanes, job);
    }

    /// Lets the lane of a job go, if no run of it waits or is on a runner. It takes no memory.
    pub fn forget(&mut self, job: JobId)
        ensures runs { self.new.runs ≡ self.old.runs }
        ensures on_runners { self.new.on_runners ≡ self.old.on_runners }
        ensures last { self.new.last ≡ self.old.last }
    {
        lanes::forget(&mut self.lanes, job);
    }

    /// Gives the ready front to a free runner. It takes no memory.
    pub fn give(&mut self, runner: RunnerNo, at: Moment)
        requires free { run_on runner self.old.on_runners ≡ None }
        requires room { 1 ≤ self.old.runners }
        ensures runs { self.new.runs ≡ without_first (is_ready self.old.on_runners) self.old.runs }
        ensures on_runners { self.new.on_runners ≡ put_working runner at (ready_front self.old.runs self.old.on_runners) self.old.on_runners }
        ensures last { self.new.last ≡ self.old.last }
    {
        match ready::ready_front(&self.fronts, &self.lanes) {
            None => {}
            Some(front) => {
                let new = Serving {
                    runner,
                    job: front.job,
                    number: front.number,
                };
                serve(&mut self.serving, new);
                waiting::take_first(&mut self.logs, &self.lanes, front.job);
                lanes::poll(&mut self.lanes, front.job, runner, at);
                let next = lanes::first_front(&self.lanes, front.job);
                ready::replace(&mut self.fronts, front, next);
            }
        }
    }

    /// Takes the run of a runner away. It takes no memory.
    pub fn leave(&mut self, runner: RunnerNo)
        ensures runs { self.new.runs ≡ self.old.runs }
        ensures on_runners { self.new.on_runners ≡ without_first (is_on runner) self.old.on_runners }
        ensures last { self.new.last ≡ self.old.last }
    {
        match served(self.serving.as_slice(), runner) {
            None => {}
            Some(served) => {
                lanes::finish(&mut self.lanes, served.job, runner);
                lanes::forget(&mut self.lanes, served.job);
                leave(&mut self.serving, runner);
            }
        }
    }

    /// Gives the late runs their results. It takes no memory.
    pub fn expire(&mut self, at: Moment)
        ensures runs { self.new.runs ≡ self.old.runs }
        ensures on_runners { self.new.on_runners ≡ map (expired_of at) self.old.on_runners }
        ensures last { self.new.last ≡ self.old.last }
    {
        lanes::expire_served(&mut self.lanes, self.serving.as_slice(), at);
    }
}

/// The run of a runner, in the lane of the job that it serves.
fn working_of(lanes: &IndexMap<u32, Lane>, served: &Serving) -> Option<Working>
    ensures { result ≡ working_as served.now (served_run lanes.now.entries served.now) }
{
    match lanes::run_on(lanes, served.job, served.runner) {
        None => None,
        Some(run) => Some(Working {
            job: served.job,
            number: served.number,
            run,
        }),
    }
}

/// Whether that run is of this log.
fn serves_log(lanes: &IndexMap<u32, Lane>, served: &Serving, log: LogId) -> bool
    ensures { result ≡ is_of_log log (served_run lanes.now.entries served.now) }
{
    match lanes::run_on(lanes, served.job, served.runner) {
        None => false,
        Some(run) => log == run.log,
    }
}

/// Whether some of these runners has a run of this log.
fn some_serves(lanes: &IndexMap<u32, Lane>, serving: &[Serving], log: LogId) -> bool
    ensures { result ≡ list_any (λ s. is_of_log log (served_run lanes.now.entries s)) serving.now }
{
    serving.iter().any(|served| serves_log(lanes, served, log))
}

/// The runs of these runners.
fn all_served(
    alloc: Global,
    lanes: &IndexMap<u32, Lane>,
    serving: &[Serving],
) -> Result<Vec<Working>, NoMemory>
    ensures { IfOk result (λ runs. runs.items ≡ by_runner lanes.now.entries serving.now) }
{
    let mut runs = Vec::new(alloc);
    for served in serving {
        if let Some(working) = working_of(lanes, served) {
            runs.push(working)?;
        }
    }
    Ok(runs)
}
