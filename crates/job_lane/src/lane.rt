//! A lane: the queue of a job, and its runs on runners.
ghost use Rattle.std.specs.Prelude.{◌≡◌, ◌+◌, ◌<◌, ◌≤◌, ◌==◌, nat_lt, [], ◌∷◌, ◌++◌, length, map, count_by, find, position, OnOk, OnErr, IsTrue, IsSome, MatchBool, None, if◌then◌else◌, vec_len, vec_capacity};
ghost use Rattle.std.specs.List.{list_any};
ghost use Rattle.std.specs.Option.{option_copied};
ghost use Rattle.job_lane.specs.Runs.{is_running, is_overdue, ended_run, expired_run, without_runner, put_before, started_run};
ghost use Rattle.job_lane.specs.Lanes.{runs, front_of, queue_polled, put_started};

use super::runs::{QueuedRun, RunnerRun};
use job_values::limits::SECOND;
use job_values::{JobId, Moment, NoMemory, RunnerNo};
use std::alloc::Global;
use std::collections::VecDeque;
use std::marker::Model;

/// The runs of a job: those that wait, in order of acceptance, and those on runners, in order of the runners.
#[derive(Drop)]
pub struct Lane {
    job: JobId,
    queue: VecDeque<QueuedRun>,
    on_runners: Vec<RunnerRun>,
}

impl Model for Lane {
    ghost use Rattle.std.specs.Prelude.{◌+◌, ◌-◌, ◌≤◌, min, vec_len, vec_capacity};
    ghost use Rattle.std.specs.VecDeque.{deque_len, deque_capacity};
    ghost use Rattle.job_lane.specs.Lanes.{LaneView};

    ghost Value = { LaneView };

    ghost view = { λ l. record {
      job = l.job;
      queue = l.queue.items;
      on_runners = l.on_runners.items;
      room = min (deque_capacity l.queue - deque_len l.queue) (vec_capacity l.on_runners - (vec_len l.on_runners + deque_len l.queue));
    } };

    ghost invariant = { λ l. vec_len l.on_runners + deque_len l.queue ≤ vec_capacity l.on_runners };
}

/// Whether a run of these runs.
fn some_running(on_runners: &[RunnerRun]) -> bool
    ensures { result ≡ runs on_runners.now }
{
    on_runners.iter().any(|run| !(run.ended || run.given))
}

/// The place of a runner's run among these.
fn place_of(on_runners: &[RunnerRun], runner: RunnerNo) -> Option<usize>
    ensures { result ≡ position (λ run. runner == run.runner) on_runners.now }
{
    on_runners.iter().position(|run| runner == run.runner)
}

/// The run of a runner among these.
fn run_of(on_runners: &[RunnerRun], runner: RunnerNo) -> Option<&RunnerRun>
    ensures { option_copied result ≡ find (λ run. runner == run.runner) on_runners.now }
{
    on_runners.iter().find(|run| runner == run.runner)
}

/// Takes the run of a runner out of these, if it is there.
fn take_runner(on_runners: &mut Vec<RunnerRun>, runner: RunnerNo) -> Option<RunnerRun>
    ensures result { result ≡ find (λ run. runner == run.runner) on_runners.old.items }
    ensures items { on_runners.new.items ≡ without_runner runner on_runners.old.items }
    ensures len { vec_len on_runners.new ≤ vec_len on_runners.old }
    ensures capacity { vec_capacity on_runners.new ≡ vec_capacity on_runners.old }
{
    match place_of(on_runners.as_slice(), runner) {
        None => None,
        Some(place) => Some(on_runners.remove(place)),
    }
}

/// The place of the first run on a later runner.
fn place_behind(on_runners: &[RunnerRun], runner: RunnerNo) -> Option<usize>
    ensures { result ≡ position (λ run. nat_lt runner run.runner) on_runners.now }
{
    on_runners
        .iter()
        .position(|run| runner.get() < run.runner.get())
}

/// Puts a run before those on later runners. There is room for it.
fn put_run(on_runners: &mut Vec<RunnerRun>, new: RunnerRun)
    requires { vec_len on_runners.old < vec_capacity on_runners.old }
    ensures items { on_runners.new.items ≡ put_before (λ run. nat_lt new.runner run.runner) new on_runners.old.items }
    ensures len { vec_len on_runners.new ≡ vec_len on_runners.old + 1 }
    ensures capacity { vec_capacity on_runners.new ≡ vec_capacity on_runners.old }
{
    match place_behind(on_runners.as_slice(), new.runner) {
        None => on_runners.push_reserved(new),
        Some(place) => {
            let _put = on_runners.insert(place, new);
        }
    }
}

/// Whether a run without result has lasted longer than its timeout.
fn overdue(run: &RunnerRun, now: Moment) -> bool
    ensures { result ≡ is_overdue now run.now }
{
    let timeout = run.timeout.get();
    let least = run.start.get() + u64::from(timeout) * SECOND;
    !run.given && timeout > 0 && least <= now.get()
}

/// How many of these runs are overdue.
fn count_overdue(on_runners: &[RunnerRun], now: Moment) -> u64
    ensures { result ≡ count_by (is_overdue now) on_runners.now }
{
    on_runners.iter().filter(|run| overdue(run, now)).count() as u64
}

/// The run as a runner starts it.
fn started(run: &QueuedRun, runner: RunnerNo, now: Moment) -> RunnerRun
    ensures { result ≡ started_run runner now run.now }
{
    RunnerRun {
        runner,
        log: run.log,
        log_moment: run.log_moment,
        start: now,
        timeout: run.timeout,
        ended: false,
        given: false,
    }
}

/// The run, ended if it runs.
fn ended(run: &RunnerRun) -> RunnerRun
    ensures { result ≡ ended_run run.now }
{
    let mut after = *run;
    if !(run.ended || run.given) {
        after.ended = true;
    }
    after
}

/// The run, with its result if it is overdue.
fn expired(run: &RunnerRun, now: Moment) -> RunnerRun
    ensures { result ≡ expired_run now run.now }
{
    let mut after = *run;
    if overdue(run, now) {
        after.given = true;
    }
    after
}

/// Ends each of these runs that runs.
fn end_running(on_runners: &mut Vec<RunnerRun>)
    ensures items { on_runners.new.items ≡ map ended_run on_runners.old.items }
    ensures len { vec_len on_runners.new ≡ vec_len on_runners.old }
    ensures capacity { vec_capacity on_runners.new ≡ vec_capacity on_runners.old }
{
    for run in on_runners.iter_mut() {
        *run = ended(run);
    }
}

/// Gives each of these runs that is overdue its result.
fn expire_overdue(on_runners: &mut Vec<RunnerRun>, now: Moment)
    ensures items { on_runners.new.items ≡ map (expired_run now) on_runners.old.items }
    ensures len { vec_len on_runners.new ≡ vec_len on_runners.old }
    ensures capacity { vec_capacity on_runners.new ≡ vec_capacity on_runners.old }
{
    for run in on_runners.iter_mut() {
        *run = expired(run, now);
    }
}

impl Lane {
    /// The lane of a job, without runs. It takes no memory.
    pub fn new(alloc: Global, job: JobId) -> Lane
        ensures job { result.job ≡ job }
        ensures queue { result.queue ≡ [] }
        ensures on_runners { result.on_runners ≡ [] }
    {
        Lane {
            job,
            queue: VecDeque::new(alloc),
            on_runners: Vec::new(alloc),
        }
    }

    /// Makes room for one more run in the queue, and on the runners for each queued run and one more.
    pub fn reserve(&mut self) -> Result<(), NoMemory>
        ensures job { self.new.job ≡ self.old.job }
        ensures queue { self.new.queue ≡ self.old.queue }
        ensures on_runners { self.new.on_runners ≡ self.old.on_runners }
        ensures room { OnOk result (1 ≤ self.new.room) }
        ensures kept { self.old.room ≤ self.new.room }
    {
        let waiting = self.queue.len();
        self.queue.reserve(1)?;
        self.on_runners.reserve(waiting.saturating_add(1))?;
        Ok(())
    }

    /// Puts a run behind the others. It takes no memory.
    pub fn offer(&mut self, run: QueuedRun)
        requires { 1 ≤ self.old.room }
        ensures job { self.new.job ≡ self.old.job }
        ensures queue { self.new.queue ≡ self.old.queue ++ run ∷ [] }
        ensures on_runners { self.new.on_runners ≡ self.old.on_runners }
        ensures room { self.old.room ≤ self.new.room + 1 }
    {
        self.queue.push_back_reserved(run);
    }

    /// The runs that wait.
    pub fn queue(&self) -> &VecDeque<QueuedRun>
        ensures { result.now.items ≡ self.now.queue }
    {
        &self.queue
    }

    /// The runs that are on runners.
    pub fn on_runners(&self) -> &[RunnerRun]
        ensures { result.now ≡ self.now.on_runners }
    {
        self.on_runners.as_slice()
    }

    /// Whether a run of it runs.
    pub fn is_running(&self) -> bool
        ensures { result ≡ runs self.now.on_runners }
    {
        some_running(self.on_runners.as_slice())
    }

    /// The run that a runner has here.
    pub fn on(&self, runner: RunnerNo) -> Option<RunnerRun>
        ensures { result ≡ find (λ run. runner == run.runner) self.now.on_runners }
    {
        match run_of(self.on_runners.as_slice(), runner) {
            None => None,
            Some(run) => Some(*run),
        }
    }

    /// Whether a runner has a run here.
    pub fn has(&self, runner: RunnerNo) -> bool
        ensures { MatchBool result (IsSome (find (λ run. runner == run.runner) self.now.on_runners)) (find (λ run. runner == run.runner) self.now.on_runners ≡ None) }
    {
        match self.on(runner) {
            None => false,
            Some(_) => true,
        }
    }

    /// Gives the front run to a runner, where the lane is ready: no run of it runs, and one waits. It takes no memory.
    pub fn poll(&mut self, runner: RunnerNo, now: Moment) -> Option<QueuedRun>
        requires { find (λ run. runner == run.runner) self.old.on_runners ≡ None }
        ensures result { result ≡ front_of self.old.queue self.old.on_runners }
        ensures job { self.new.job ≡ self.old.job }
        ensures queue { self.new.queue ≡ queue_polled self.old.queue self.old.on_runners }
        ensures on_runners { self.new.on_runners ≡ put_started runner now (front_of self.old.queue self.old.on_runners) self.old.on_runners }
        ensures room { self.old.room ≤ self.new.room }
    {
        if some_running(self.on_runners.as_slice()) {
            return None;
        }
        let run = self.queue.pop_front()?;
        put_run(&mut self.on_runners, started(&run, runner, now));
        Some(run)
    }

    /// Takes the run of a runner out, or answers None where the runner has none here. It takes no memory.
    pub fn finish(&mut self, runner: RunnerNo) -> Option<RunnerRun>
        ensures result { result ≡ find (λ run. runner == run.runner) self.old.on_runners }
        ensures job { self.new.job ≡ self.old.job }
        ensures queue { self.new.queue ≡ self.old.queue }
        ensures on_runners { self.new.on_runners ≡ without_runner runner self.old.on_runners }
        ensures room { self.old.room ≤ self.new.room }
    {
        take_runner(&mut self.on_runners, runner)
    }

    /// Empties the queue, ends the run that runs, and answers how many runs waited. It takes no memory.
    pub fn kill(&mut self) -> u64
        ensures result { result ≡ length self.old.queue }
        ensures job { self.new.job ≡ self.old.job }
        ensures queue { self.new.queue ≡ [] }
        ensures on_runners { self.new.on_runners ≡ map ended_run self.old.on_runners }
        ensures room { self.old.room ≤ self.new.room }
    {
        let waiting = self.queue.len() as u64;
        self.queue.clear();
        end_running(&mut self.on_runners);
        waiting
    }

    /// Gives each overdue run its result, and answers how many there were. It takes no memory.
    pub fn expire(&mut self, now: Moment) -> u64
        ensures result { result ≡ count_by (is_overdue now) self.old.on_runners }
        ensures job { self.new.job ≡ self.old.job }
        ensures queue { self.new.queue ≡ self.old.queue }
        ensures on_runners { self.new.on_runners ≡ map (expired_run now) self.old.on_runners }
        ensures room { self.old.room ≤ self.new.room }
    {
        let overdue = count_overdue(self.on_runners.as_slice(), now);
        expire_overdue(&mut self.on_runners, now);
        overdue
    }
}
