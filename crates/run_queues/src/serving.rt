//! What each runner serves, by the runners.
ghost use Rattle.std.specs.Prelude.{◌≡◌, ◌+◌, ◌<◌, ◌≤◌, ◌==◌, nat_lt, not, None, find, filter, vec_len, vec_capacity};
ghost use Rattle.job_lane.specs.Runs.{put_before};
ghost use Rattle.rising_rows.specs.Rising.{RisesFrom};

use job_values::{JobId, RunnerNo};
use rising_rows::{Keyed, put, row_of, take};

/// The job that a runner serves.
#[derive(Clone, Copy)]
pub struct Serving {
    pub runner: RunnerNo,
    pub job: JobId,
    /// The place of its run in order of acceptance.
    pub number: u64,
}

/// Runners are counted from 0, and keys from 1.
impl Keyed for Serving {
    ghost key_of = { λ s. s.runner + 1 };

    fn key(&self) -> u64 {
        key_of(self.runner)
    }
}

/// The key of a runner.
pub(crate) fn key_of(runner: RunnerNo) -> u64
    ensures { result ≡ runner + 1 }
{
    u64::from(runner.get()) + 1
}

/// What a runner serves, if it has a run.
pub(crate) fn served(serving: &[Serving], runner: RunnerNo) -> Option<Serving>
    requires { RisesFrom (λ s. s.runner + 1) 0 serving.now }
    ensures { result ≡ find (λ s. runner == s.runner) serving.now }
{
    match row_of(serving, key_of(runner)) {
        None => None,
        Some(served) => Some(*served),
    }
}

/// A runner that has no run serves a job. There is room for it.
pub(crate) fn serve(serving: &mut Vec<Serving>, new: Serving)
    requires rises { RisesFrom (λ s. s.runner + 1) 0 serving.old.items }
    requires free { find (λ s. new.runner == s.runner) serving.old.items ≡ None }
    requires room { vec_len serving.old < vec_capacity serving.old }
    ensures items { serving.new.items ≡ put_before (λ s. nat_lt new.runner s.runner) new serving.old.items }
    ensures room { vec_len serving.new ≤ vec_capacity serving.new }
{
    put(serving, new);
}

/// A runner serves no job.
pub(crate) fn leave(serving: &mut Vec<Serving>, runner: RunnerNo)
    requires { RisesFrom (λ s. s.runner + 1) 0 serving.old.items }
    ensures items { serving.new.items ≡ filter (λ s. not (runner == s.runner)) serving.old.items }
    ensures capacity { vec_capacity serving.new ≡ vec_capacity serving.old }
    ensures len { vec_len serving.new ≤ vec_len serving.old }
{
    take(serving, key_of(runner));
}
