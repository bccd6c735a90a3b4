//! The page of a scan: the first of the jobs that are due.
ghost use Rattle.std.specs.Prelude.{◌≡◌, ◌+◌, ◌≤◌, length, slice_get, nat_le, Some, None, IfOk, if◌then◌else◌};
ghost use Rattle.job_values.specs.declared.limits.TheConstants.{LOOK_AHEAD};
ghost use Rattle.row_indexes.specs.Pages.{due_ids, IsPage};

use super::due_index::DueIndex;
use job_values::limits::LOOK_AHEAD;
use job_values::{JobId, Moment, NoMemory, Seq, Steps};
use std::alloc::Global;
use std::sync::ledger::Ledger;

/// The job of an entry, if its next time is no further than a number of milliseconds.
fn job_if_due(entry: (Moment, JobId), bound: u64) -> Option<JobId>
    ensures { result ≡ (if nat_le entry.0 bound then Some entry.1 else None) }
{
    let (next, job) = entry;
    if next.get() <= bound { Some(job) } else { None }
}

/// That of the entry at a place.
fn due_at<L: Ledger>(
    index: &DueIndex,
    place: usize,
    bound: u64,
    steps: &mut Steps<L>,
) -> Option<JobId>
    ensures job { result ≡ slice_get (due_ids bound index.now.keys) place }
    ensures steps { steps.new ≡ steps.old + 1 }
{
    match index.entry_at(place, steps) {
        Some(entry) => job_if_due(entry, bound),
        None => None,
    }
}

/// The jobs whose next times are no further than a number of milliseconds, in order of these times.
fn due_jobs<L: Ledger>(
    alloc: Global,
    index: &DueIndex,
    bound: u64,
    steps: &mut Steps<L>,
) -> Result<Vec<JobId>, NoMemory>
    ensures ids { IfOk result (λ jobs. jobs.items ≡ due_ids bound index.now.keys) }
    ensures steps { steps.new ≤ steps.old + (length (due_ids bound index.now.keys) + 1) }
{
    let mut jobs = Vec::new(alloc);
    while let Some(job) = due_at(index, jobs.len(), bound, steps) {
        jobs.push(job)?;
    }
    Ok(jobs)
}

/// The first `limit` jobs, in order of their ids, whose next times are at most `LOOK_AHEAD`
/// milliseconds after `now`. It makes at most one step for each job that is due, and one more.
pub fn page_of<L: Ledger>(
    alloc: Global,
    index: &DueIndex,
    now: Moment,
    limit: usize,
    steps: &mut Steps<L>,
) -> Result<Seq<JobId>, NoMemory>
    ensures page { IfOk result (IsPage limit now index.now.keys) }
    ensures steps { steps.new ≤ steps.old + (length (due_ids (now + LOOK_AHEAD) index.now.keys) + 1) }
{
    let mut jobs = due_jobs(alloc, index, now.get() + LOOK_AHEAD, steps)?;
    jobs.sort_unstable();
    jobs.dedup();
    jobs.truncate(limit);
    Ok(Seq::of(jobs))
}
