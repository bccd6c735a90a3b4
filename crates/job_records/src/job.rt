//! The row of a job.

ghost use Rattle.std.specs.Prelude.{◌≡◌, IfOk};

use cron_schedule::Schedule;
use job_values::{Edition, JobId, JobSpec, Moment, NoMemory};
use rising_rows::Keyed;
use std::alloc::Global;

/// A job. It runs exactly where it has a next time, its schedule is what its spec's text says, and
/// its zone text is empty or a zone text.
#[derive(Drop)]
pub struct Job {
    pub id: JobId,
    pub spec: JobSpec,
    pub schedule: Schedule,
    pub running: bool,
    /// How often it was started, stopped or updated.
    pub edition: Edition,
    pub next: Option<Moment>,
}

impl Keyed for Job {
    ghost key_of = { λ job. job.id };

    fn key(&self) -> u64 {
        self.id.get() as u64
    }
}

impl Job {
    /// Another row that says the same.
    pub fn copy(&self, alloc: Global) -> Result<Job, NoMemory>
        ensures { IfOk result (λ row. row ≡ self.now) }
    {
        let spec = self.spec.copy(alloc)?;
        let schedule = self.schedule.copy(alloc)?;
        Ok(Job {
            id: self.id,
            spec,
            schedule,
            running: self.running,
            edition: self.edition,
            next: self.next,
        })
    }
}
