//! The jobs: adding, stopping and removing them.
ghost use Rattle.std.specs.Prelude.{◌≡◌, IfOk};
ghost use Rattle.job_events.specs.declared.cluster.ClusterEvent.TheVariants.{AddJob, StopJob, RemoveJob};
ghost use Rattle.cron_schedule.specs.Parse.{parsed};
ghost use Rattle.cluster_plan.specs.Edits.{new_row};
ghost use Rattle.cluster_plan.specs.Kept.{IsSound, kept_in};
ghost use Rattle.cluster_plan.specs.Plans.{IsPlanned};

use super::changes::{one_change, two_changes};
use super::edits::turned;
use super::ids::{next_edition, next_job};
use cluster_plan::{NodeChange, Prepared, Seen, zone_said};
use cron_schedule::{ParseFault, Schedule};
use job_events::{ClusterRefusal, ClusterReply};
use job_records::{Change, Job, LastIds};
use job_values::limits::{LAST_JOB_ID, MOST_JOBS};
use job_values::{JobId, JobSpec, NoMemory, ScheduleFault};
use std::alloc::Global;

/// What the text of a spec says as a schedule, or its first fault.
pub fn schedule_said(
    alloc: Global,
    spec: &JobSpec,
) -> Result<Result<Schedule, ScheduleFault>, NoMemory>
    ensures { IfOk result (λ said. parsed spec.now.kind spec.now.schedule ≡ said) }
{
    match Schedule::parse(alloc, spec.kind, spec.schedule.get()) {
        Ok(schedule) => Ok(Ok(schedule)),
        Err(ParseFault::Bad(fault)) => Ok(Err(fault)),
        Err(ParseFault::NoMemory) => Err(NoMemory),
    }
}

/// The row of a new job.
fn new_job(alloc: Global, id: JobId, spec: &JobSpec, schedule: Schedule) -> Result<Job, NoMemory>
    ensures { IfOk result (λ job. job ≡ new_row id spec.now schedule) }
{
    let spec = spec.copy(alloc)?;
    Ok(Job {
        id,
        spec,
        schedule,
        running: false,
        edition: 0,
        next: None,
    })
}

/// A job is added; it is stopped.
pub fn plan_add_job(seen: &Seen<'_>, spec: &JobSpec) -> Result<Prepared, NoMemory>
    requires { IsSound (kept_in seen.now) }
    ensures { IfOk result (IsPlanned (kept_in seen.now) (AddJob spec.now)) }
{
    if seen.records.group(spec.group).is_none() {
        return Ok(Prepared::refusal(seen.alloc, ClusterRefusal::NoGroup));
    }
    let schedule = match schedule_said(seen.alloc, spec)? {
        Ok(schedule) => schedule,
        Err(fault) => {
            let why = ClusterRefusal::BadSchedule(fault);
            return Ok(Prepared::refusal(seen.alloc, why));
        }
    };
    let _zone = match zone_said(seen.settings, spec) {
        Ok(zone) => zone,
        Err(fault) => {
            let why = ClusterRefusal::BadZone(fault);
            return Ok(Prepared::refusal(seen.alloc, why));
        }
    };
    if seen.records.jobs().len() >= MOST_JOBS {
        let why = ClusterRefusal::TooMany(MOST_JOBS as u32);
        return Ok(Prepared::refusal(seen.alloc, why));
    }
    let last = seen.records.last_ids();
    let Some(id) = next_job(last.job) else {
        let why = ClusterRefusal::TooMany(LAST_JOB_ID);
        return Ok(Prepared::refusal(seen.alloc, why));
    };
    let row = new_job(seen.alloc, id, spec, schedule)?;
    let last = LastIds {
        group: last.group,
        job: id.get(),
        log: last.log,
    };
    let changes = two_changes(seen.alloc, Change::LastIds(last), Change::PutJob(row))?;
    Ok(Prepared::changing(ClusterReply::Job(id), changes, NodeChange::Nothing))
}

/// A job is stopped.
pub fn plan_stop_job(seen: &Seen<'_>, job: JobId) -> Result<Prepared, NoMemory>
    requires { IsSound (kept_in seen.now) }
    ensures { IfOk result (IsPlanned (kept_in seen.now) (StopJob job)) }
{
    let Some(row) = seen.records.job(job) else {
        return Ok(Prepared::refusal(seen.alloc, ClusterRefusal::NoJob));
    };
    let Some(edition) = next_edition(row.edition) else {
        return Ok(Prepared::refusal(seen.alloc, ClusterRefusal::IdsSpent));
    };
    let stopped = turned(seen.alloc, row, edition, None)?;
    let changes = one_change(seen.alloc, Change::PutJob(stopped))?;
    Ok(Prepared::changing(ClusterReply::Halted(edition), changes, NodeChange::Nothing))
}

/// A job is removed.
pub fn plan_remove_job(seen: &Seen<'_>, job: JobId) -> Result<Prepared, NoMemory>
    requires { IsSound (kept_in seen.now) }
    ensures { IfOk result (IsPlanned (kept_in seen.now) (RemoveJob job)) }
{
    if seen.records.job(job).is_none() {
        return Ok(Prepared::refusal(seen.alloc, ClusterRefusal::NoJob));
    }
    let changes = one_change(seen.alloc, Change::DropJob(job))?;
    Ok(Prepared::changing(ClusterReply::Done, changes, NodeChange::Nothing))
}
