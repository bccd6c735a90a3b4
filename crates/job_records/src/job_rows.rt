//! The rows of jobs, with the index of the running ones.
ghost use Rattle.std.specs.Prelude.{◌≡◌, ◌+◌, ◌≤◌, [], OnOk};
ghost use Rattle.std.specs.Option.{option_and_then};
ghost use Rattle.rising_rows.specs.Rising.{row_with, put_row, without, without_all, RisesFrom};
ghost use Rattle.job_records.specs.DropBatches.{dropped_id};
ghost use Rattle.row_indexes.specs.Entries.{without_entry};
ghost use Rattle.job_records.specs.DueJobs.{next_of, due_of, due_entries};

use super::change::Change;
use super::job::Job;
use job_values::{JobId, Moment, NoMemory};
use rising_rows::{Keyed, put, row_of, take, take_all};
use row_indexes::DueIndex;
use std::alloc::Global;
use std::marker::Model;

/// The jobs in order of their ids, and the running ones in order of their next times.
#[derive(Drop)]
pub(crate) struct JobRows {
    jobs: Vec<Job>,
    due: DueIndex,
}

impl Model for JobRows {
    ghost use Rattle.std.specs.Prelude.{◌≡◌, ◌-◌, min, vec_len, vec_capacity};
    ghost use Rattle.rising_rows.specs.Rising.{RisesFrom};
    ghost use Rattle.job_records.specs.declared.job.Job.{Job};
    ghost use Rattle.job_records.specs.DueJobs.{due_entries};
    ghost use Rattle.job_records.specs.KeptRows.{KeptRows};

    ghost Value = { KeptRows Job };

    ghost view = { λ j. record { rows = j.jobs.items; room = min (vec_capacity j.jobs - vec_len j.jobs) j.due.room } };

    ghost invariant = { λ j. RisesFrom (λ job. job.id) 0 j.jobs.items × (j.due.keys ≡ due_entries j.jobs.items) };
}

/// The next time of a job that runs.
fn next_time(job: &Job) -> Option<Moment>
    ensures { result ≡ next_of job.now }
{
    if job.running { job.next } else { None }
}

/// That of the job with this id.
fn next_with(jobs: &[Job], id: JobId) -> Option<Moment>
    requires { RisesFrom (λ job. job.id) 0 jobs.now }
    ensures next { result ≡ option_and_then next_of (row_with (λ job. job.id) id jobs.now) }
    ensures least { 1 ≤ id }
{
    match row_of(jobs, id.get() as u64) {
        Some(job) => next_time(job),
        None => None,
    }
}

/// Drops the job with this id from the index, if there is one.
fn drop_one(due: &mut DueIndex, jobs: &[Job], id: u64)
    requires { RisesFrom (λ job. job.id) 0 jobs.now }
    ensures keys { due.new.keys ≡ without_entry (option_and_then due_of (row_with (λ job. job.id) id jobs.now)) due.old.keys }
    ensures room { due.old.room ≤ due.new.room }
{
    if let Some(job) = row_of(jobs, id) {
        due.drop_job(job.id, next_time(job));
    }
}

/// Drops the jobs from the index that have the ids of these drops: a binary search for each.
fn drop_each(due: &mut DueIndex, jobs: &[Job], drops: &[Change])
    requires rising { RisesFrom (λ job. job.id) 0 jobs.now }
    requires keys { due.old.keys ≡ due_entries jobs.now }
    ensures keys { due.new.keys ≡ due_entries (without_all (λ job. job.id) dropped_id drops.now jobs.now) }
    ensures room { due.old.room ≤ due.new.room }
{
    for drop in drops {
        drop_one(due, jobs, drop.key());
    }
}

impl JobRows {
    pub(crate) fn new(alloc: Global) -> JobRows
        ensures { result.rows ≡ [] }
    {
        JobRows {
            jobs: Vec::new(alloc),
            due: DueIndex::new(alloc),
        }
    }

    pub(crate) fn as_slice(&self) -> &[Job]
        ensures value { result.now ≡ self.now.rows }
    {
        self.jobs.as_slice()
    }

    pub(crate) fn due(&self) -> &DueIndex
        ensures { result.now.keys ≡ due_entries self.now.rows }
    {
        &self.due
    }

    /// Makes room for `more` jobs. It changes no row, whatever it answers.
    pub(crate) fn reserve(&mut self, more: usize) -> Result<(), NoMemory>
        ensures ok { OnOk result (more ≤ self.new.room) }
        ensures same { self.new.rows ≡ self.old.rows }
        ensures no_less { self.old.room ≤ self.new.room }
    {
        self.jobs.reserve(more)?;
        self.due.reserve(more)
    }

    /// Puts a job, for which there is room. What is known of the one with its id is read before.
    pub(crate) fn put(&mut self, job: Job)
        requires { 1 ≤ self.old.room }
        ensures rows { self.new.rows ≡ put_row (λ job. job.id) job self.old.rows }
        ensures room { self.old.room ≤ self.new.room + 1 }
    {
        let old = next_with(self.jobs.as_slice(), job.id);
        self.due.change(job.id, old, next_time(&job));
        put(&mut self.jobs, job);
    }

    /// Takes the job with this id out, if there is one.
    pub(crate) fn take(&mut self, id: JobId)
        ensures rows { self.new.rows ≡ without (λ job. job.id) id self.old.rows }
        ensures room { self.old.room ≤ self.new.room }
    {
        drop_one(&mut self.due, self.jobs.as_slice(), id.get() as u64);
        take(&mut self.jobs, id.get() as u64);
    }

    /// Takes all jobs out that have the ids of these drops: one pass over the jobs.
    pub(crate) fn take_all(&mut self, drops: &[Change])
        requires { RisesFrom dropped_id 0 drops.now }
        ensures rows { self.new.rows ≡ without_all (λ job. job.id) dropped_id drops.now self.old.rows }
        ensures room { self.old.room ≤ self.new.room }
    {
        drop_each(&mut self.due, self.jobs.as_slice(), drops);
        take_all(&mut self.jobs, drops);
    }
}
