//! The last runs of the known logs, in order of their moments and then of their logs.
ghost use Rattle.std.specs.Prelude.{◌≡◌, ◌+◌, ◌*◌, ◌^◌, ◌<◌, ◌≤◌, ◌==◌, nat_lt, false, not, ◌++◌, count_by, filter, find, take, drop, Some};
ghost use Rattle.std.specs.List.{AllByRecursion as Each};
ghost use Rattle.std.specs.Option.{option_map};
ghost use Rattle.std.specs.VecDeque.{deque_len, deque_capacity};
ghost use Rattle.std.specs.Ordering.{nat_cmp};
ghost use Rattle.job_lane.specs.Runs.{put_before};
ghost use Rattle.rising_rows.specs.Rising.{RisesFrom};
ghost use Rattle.executor_core.specs.Rows.{run_rank, is_trimmed_run, HaveOwn};

use super::ids::Ids;
use job_values::{LogId, LogMoment, Moment};
use run_queues::Queues;
use run_queues::ranked::{Ranked, put, take};
use std::cmp::Ordering;
use std::collections::VecDeque;

/// The last run of a known log.
#[derive(Clone, Copy)]
pub struct LastRun {
    pub moment: LogMoment,
    pub log: LogId,
}

impl Ranked for LastRun {
    ghost rank_of = { λ run. run.moment * 2 ^ 64 + run.log };

    #[tactic(auto, using(crate::proofs::Ranks::rank_cmp))]
    fn compare(&self, other: &LastRun) -> Ordering {
        let moments = self.moment.get().cmp(&other.moment.get());
        moments.then(self.log.get().cmp(&other.log.get()))
    }
}

/// Takes the last run of a log out, if it had this moment.
fn take_run(runs: &mut VecDeque<LastRun>, run: &LastRun)
    requires rises { RisesFrom run_rank 0 runs.old.items }
    requires own { HaveOwn (λ other. other.log) runs.old.items }
    requires ids { Each (λ other. other.log < 2 ^ 64) runs.old.items }
    requires low { run.now.log < 2 ^ 64 }
    requires known { find (λ other. run.now.log == other.log) runs.old.items ≡ Some run.now }
    ensures runs { runs.new.items ≡ filter (λ other. not (run.now.log == other.log)) runs.old.items }
    ensures len { deque_len runs.new ≤ deque_len runs.old }
    ensures capacity { deque_capacity runs.new ≡ deque_capacity runs.old }
{
    take(runs, run);
}

/// Takes the last run of a log out, which had this moment, if there is one.
fn take_last(runs: &mut VecDeque<LastRun>, log: LogId, moment: Option<LogMoment>)
    requires rises { RisesFrom run_rank 0 runs.old.items }
    requires own { HaveOwn (λ other. other.log) runs.old.items }
    requires ids { Each (λ other. other.log < 2 ^ 64) runs.old.items }
    requires low { log < 2 ^ 64 }
    requires known { find (λ other. log == other.log) runs.old.items ≡ option_map (λ moment. record { moment = moment; log = log }) moment }
    ensures runs { runs.new.items ≡ filter (λ other. not (log == other.log)) runs.old.items }
    ensures len { deque_len runs.new ≤ deque_len runs.old }
    ensures capacity { deque_capacity runs.new ≡ deque_capacity runs.old }
{
    if let Some(moment) = moment {
        take_run(runs, &LastRun { moment, log });
    }
}

/// Puts the new last run of a log in place of the one with this moment, if there is one. There is room for it.
pub(crate) fn renew(runs: &mut VecDeque<LastRun>, new: LastRun, moment: Option<LogMoment>)
    requires rises { RisesFrom run_rank 0 runs.old.items }
    requires own { HaveOwn (λ other. other.log) runs.old.items }
    requires ids { Each (λ other. other.log < 2 ^ 64) runs.old.items }
    requires low { new.log < 2 ^ 64 }
    requires known { find (λ other. new.log == other.log) runs.old.items ≡ option_map (λ moment. record { moment = moment; log = new.log }) moment }
    requires room { deque_len runs.old < deque_capacity runs.old }
    ensures { runs.new.items ≡ put_before (λ other. nat_lt (run_rank new) (run_rank other)) new (filter (λ other. not (new.log == other.log)) runs.old.items) }
{
    take_last(runs, new.log, moment);
    put(runs, new);
}

/// How many last runs come before a moment, found by halves.
pub(crate) fn old_len(runs: &VecDeque<LastRun>, at: Moment) -> usize
    requires rises { RisesFrom run_rank 0 runs.now.items }
    requires ids { Each (λ run. run.log < 2 ^ 64) runs.now.items }
    ensures len { result ≤ deque_len runs.now }
    ensures rest { Each (λ run. nat_lt run.moment at ≡ false) (drop result runs.now.items) }
{
    runs.partition_point(|run| run.moment.get() < at.get())
}

/// Whether a trim at a moment drops the log of a last run.
pub(crate) fn trimmed(run: &LastRun, at: Moment, held: &Ids, queues: &Queues) -> bool
    ensures { result ≡ is_trimmed_run at held.now.ids queues.now.on_runners run.now }
{
    run.moment.get() < at.get() && !(held.contains(run.log) || queues.has_on(run.log))
}

/// How many logs a trim at a moment drops. It reads the last runs before that moment.
pub(crate) fn trimmed_len(runs: &VecDeque<LastRun>, at: Moment, held: &Ids, queues: &Queues) -> u64
    requires rises { RisesFrom run_rank 0 runs.now.items }
    requires ids { Each (λ run. run.log < 2 ^ 64) runs.now.items }
    ensures { result ≡ count_by (is_trimmed_run at held.now.ids queues.now.on_runners) runs.now.items }
{
    let old = old_len(runs, at);
    let mut count = 0;
    for place in 0..old {
        if let Some(run) = runs.get(place) {
            if trimmed(run, at, held, queues) {
                count += 1;
            }
        }
    }
    count
}

/// Lets the last runs of the logs go that a trim drops, of so many first ones.
pub(crate) fn drop_first(
    runs: &mut VecDeque<LastRun>,
    old: usize,
    at: Moment,
    held: &Ids,
    queues: &Queues,
)
    requires { old ≤ deque_len runs.old }
    ensures { runs.new.items ≡ filter (λ run. not (is_trimmed_run at held.now.ids queues.now.on_runners run)) (take old runs.old.items) ++ drop old runs.old.items }
{
    let mut kept = 0;
    for _read in 0..old {
        if let Some(run) = runs.front() {
            let run = *run;
            if trimmed(&run, at, held, queues) {
                let _gone = runs.pop_front();
            } else {
                runs.rotate_left(1);
                kept += 1;
            }
        }
    }
    runs.rotate_right(kept);
}
