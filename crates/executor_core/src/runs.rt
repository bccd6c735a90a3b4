//! What is asked of the runs of an executor.
ghost use Rattle.std.specs.Prelude.{◌≡◌, ◌==◌, not, filter, count_by, ◌≤◌, ◌<◌, ◌++◌, [], ◌∷◌, map, if◌then◌else◌};
ghost use Rattle.job_lane.specs.Runs.{is_overdue};
ghost use Rattle.executor_history.specs.Runs.{is_busy, is_queued_of, ended_of, is_late};
ghost use Rattle.executor_history.specs.Replies.{is_ended};
ghost use Rattle.run_queues.specs.Order.{HasRoom};

use executor_history::{Queued, Working};
use job_values::limits::SECOND;
use job_values::{JobId, LogId, Moment};
use run_queues::Queues;

/// Whether the job runs or has a queue.
pub fn busy(job: JobId, queues: &Queues) -> bool
    ensures { result ≡ is_busy job queues.now.runs queues.now.on_runners }
{
    queues.has(job) || queues.is_running(job)
}

/// Whether no run of the log waits or is on a runner.
pub fn ended(log: LogId, queues: &Queues) -> bool
    ensures { result ≡ is_ended log queues.now.runs queues.now.on_runners }
{
    !(queues.has_log(log) || queues.has_on(log))
}

/// Whether a run without result has lasted longer than its timeout.
pub fn late(working: &Working, at: Moment) -> bool
    ensures { result ≡ is_late at working.now }
{
    let run = &working.run;
    let timeout = run.timeout.get();
    let least = run.start.get() + u64::from(timeout) * SECOND;
    !run.given && timeout > 0 && least <= at.get()
}

/// How many runs are late.
pub fn late_len(at: Moment, on_runners: &[Working]) -> u64
    ensures { result ≡ count_by (is_late at) on_runners.now }
{
    on_runners.iter().filter(|w| late(w, at)).count() as u64
}

/// Puts a run behind those that wait, or in place of those of its job that it covers. There is room for it.
pub fn enqueue(new: Queued, cover: bool, queues: &mut Queues)
    requires later { queues.old.last < new.run.number }
    requires room { HasRoom new.job queues.old }
    ensures runs { queues.new.runs ≡ (if cover then filter (λ q. not (is_queued_of new.job q)) queues.old.runs else queues.old.runs) ++ new ∷ [] }
    ensures on_runners { queues.new.on_runners ≡ (if cover then map (ended_of new.job) queues.old.on_runners else queues.old.on_runners) }
    ensures last { queues.new.last ≡ new.run.number }
{
    if cover {
        queues.kill(new.job);
    }
    queues.push(new);
}
