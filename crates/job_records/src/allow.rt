//! Whether the records may take a change.
ghost use Rattle.std.specs.Prelude.{◌≡◌, ℕ, ◌≤◌, ◌↔◌, IsTrue, IfOk};
ghost use Rattle.job_values.specs.declared.limits.TheConstants.{LAST_JOB_ID, LAST_LOG_ID, MOST_GROUPS, MOST_JOBS};
ghost use Rattle.job_records.specs.declared.change.Change.TheVariants as change;
ghost use Rattle.rising_rows.specs.Rising.{RisesFrom, IsRising};
ghost use Rattle.job_records.specs.Rules.{RunsByNext, HasItsSchedule, HasItsZone, HasGroup, HasAddress, HasPlace, AreLast, KeepsRules};
ghost use Rattle.job_records.specs.Changes.{applied};

use super::change::Change;
use super::group::Group;
use super::job::Job;
use super::keys::registration_fits;
use super::last_ids::LastIds;
use super::log::Log;
use super::records::Records;
use super::registry::RegistryRow;
use cron_schedule::{ParseFault, Schedule};
use job_values::limits::{LAST_JOB_ID, LAST_LOG_ID, MOST_GROUPS, MOST_JOBS, SUCCESS};
use job_values::{NoMemory, Offset};
use rising_rows::{Keyed, has_row};
use std::alloc::Global;
use zone_texts::Zone;

/// Whether a list has a row with this id, or fewer rows than a limit.
fn has_place<R: Keyed>(rows: &[R], id: u64, most: usize) -> bool
    requires { RisesFrom R.key_of 0 rows.now }
    ensures { IsTrue result ↔ HasPlace R.key_of id rows.now most }
{
    rows.len() < most || has_row(rows, id)
}

/// Whether no row has an id above this one.
fn ends_by<R: Keyed>(rows: &[R], last: u64) -> bool
    requires { RisesFrom R.key_of 0 rows.now }
    ensures { IsTrue result ↔ IsRising R.key_of 0 rows.now last }
{
    match rows.last() {
        Some(row) => row.key() <= last,
        None => true,
    }
}

fn group_fits(groups: &[Group], last: u32, group: &Group) -> bool
    requires { RisesFrom (λ g. g.id) 0 groups.now }
    ensures least { 1 ≤ group.now.id }
    ensures fits { IsTrue result ↔ ((group.now.id ≤ last) × HasPlace (λ g. g.id) group.now.id groups.now MOST_GROUPS) }
{
    group.id.get() <= last && has_place(groups, group.id.get() as u64, MOST_GROUPS)
}

/// Whether a job's zone text is empty or a zone text.
fn has_its_zone(job: &Job) -> bool
    ensures { IsTrue result ↔ HasItsZone job.now }
{
    match Offset::new(0) {
        Some(offset) => Zone::parse(job.spec.zone.get(), offset).is_ok(),
        None => unreachable!(),
    }
}

fn job_fits(groups: &[Group], jobs: &[Job], last: u32, job: &Job) -> bool
    requires groups { RisesFrom (λ g. g.id) 0 groups.now }
    requires jobs { RisesFrom (λ j. j.id) 0 jobs.now }
    ensures least { 1 ≤ job.now.id }
    ensures fits { IsTrue result ↔ ((job.now.id ≤ last) × HasPlace (λ j. j.id) job.now.id jobs.now MOST_JOBS × RunsByNext job.now × HasGroup groups.now job.now × HasItsZone job.now) }
{
    job.id.get() <= last
        && has_place(jobs, job.id.get() as u64, MOST_JOBS)
        && job.running == job.next.is_some()
        && has_row(groups, job.spec.group.get() as u64)
        && has_its_zone(job)
}

/// Whether a job's schedule is what its spec's kind and text say.
fn has_its_schedule(alloc: Global, job: &Job) -> Result<bool, NoMemory>
    ensures { IfOk result (λ same. IsTrue same ↔ HasItsSchedule job.now) }
{
    match Schedule::parse(alloc, job.spec.kind, job.spec.schedule.get()) {
        Ok(said) => Ok(said.is_same(&job.schedule)),
        Err(ParseFault::Bad(_)) => Ok(false),
        Err(ParseFault::NoMemory) => Err(NoMemory),
    }
}

fn log_fits(last: u64, log: &Log) -> bool
    ensures least { 1 ≤ log.now.id }
    ensures fits { IsTrue result ↔ ((log.now.id ≤ last) × HasAddress log.now) }
{
    log.id.get() <= last && (log.trigger_code != SUCCESS || log.address.is_some())
}

fn last_fits(groups: &[Group], jobs: &[Job], logs: &[Log], last: LastIds) -> bool
    requires groups { RisesFrom (λ g. g.id) 0 groups.now }
    requires jobs { RisesFrom (λ j. j.id) 0 jobs.now }
    requires logs { RisesFrom (λ l. l.id) 0 logs.now }
    ensures { IsTrue result ↔ AreLast groups.now jobs.now logs.now last }
{
    ends_by(groups, last.group as u64)
        && ends_by(jobs, last.job as u64)
        && ends_by(logs, last.log)
        && last.group <= LAST_JOB_ID
        && last.job <= LAST_JOB_ID
        && last.log <= LAST_LOG_ID
}

impl Records {
    fn allows_group(&self, group: &Group) -> bool
        ensures { IsTrue result ↔ KeepsRules (applied self.now.kept (change.PutGroup group.now)) }
    {
        group_fits(self.groups.as_slice(), self.last.group, group)
    }

    fn allows_job(&self, alloc: Global, job: &Job) -> Result<bool, NoMemory>
        ensures { IfOk result (λ allowed. IsTrue allowed ↔ KeepsRules (applied self.now.kept (change.PutJob job.now))) }
    {
        if !job_fits(
            self.groups.as_slice(),
            self.jobs.as_slice(),
            self.last.job,
            job,
        ) {
            return Ok(false);
        }
        has_its_schedule(alloc, job)
    }

    fn allows_log(&self, log: &Log) -> bool
        ensures { IsTrue result ↔ KeepsRules (applied self.now.kept (change.PutLog log.now)) }
    {
        log_fits(self.last.log, log)
    }

    fn allows_last(&self, last: LastIds) -> bool
        ensures { IsTrue result ↔ KeepsRules (applied self.now.kept (change.LastIds last)) }
    {
        last_fits(
            self.groups.as_slice(),
            self.jobs.as_slice(),
            self.logs.as_slice(),
            last,
        )
    }

    fn allows_registration(&self, row: &RegistryRow) -> bool
        ensures { IsTrue result ↔ KeepsRules (applied self.now.kept (change.PutRegistry row.now)) }
    {
        registration_fits(self.registry.as_slice(), row)
    }

    /// Whether the rows keep their rules after this change. A drop always does.
    pub fn allows(&self, alloc: Global, change: &Change) -> Result<bool, NoMemory>
        ensures { IfOk result (λ allowed. IsTrue allowed ↔ KeepsRules (applied self.now.kept change.now)) }
    {
        let _ = &self.last;
        match change {
            Change::PutGroup(group) => Ok(self.allows_group(group)),
            Change::PutJob(job) => self.allows_job(alloc, job),
            Change::DropJob(_) => Ok(true),
            Change::PutLog(log) => Ok(self.allows_log(log)),
            Change::DropLog(_) => Ok(true),
            Change::PutRegistry(row) => Ok(self.allows_registration(row)),
            Change::DropRegistry { key: _, value: _ } => Ok(true),
            Change::LastIds(last) => Ok(self.allows_last(*last)),
        }
    }
}
