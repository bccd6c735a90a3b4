//! The starts and the updates of jobs.
ghost use Rattle.std.specs.Prelude.{◌≡◌, is_some, IfOk, IfErr};
ghost use Rattle.job_events.specs.declared.cluster.ClusterEvent.TheVariants.{StartJob, UpdateJob};
ghost use Rattle.job_events.specs.declared.cluster.ClusterReply.TheVariants.{Updated};
ghost use Rattle.cluster_history.specs.Jobs.{first_time, updated_time};
ghost use Rattle.cluster_history.specs.Replies.{again_reply, refused};
ghost use Rattle.cluster_history.specs.Zones.{zone_of};
ghost use Rattle.cluster_plan.specs.Edits.{turned_row};
ghost use Rattle.cluster_plan.specs.Kept.{IsSound, kept_in};
ghost use Rattle.cluster_plan.specs.Plans.{IsPlanned};

use super::changes::one_change;
use super::ids::next_edition;
use super::jobs::schedule_said;
use cluster_history::Settings;
use cluster_plan::{NodeChange, Prepared, Seen, zone_of, zone_said};
use cron_schedule::Schedule;
use cron_schedule::laws::law_after_rises;
use job_events::{ClusterRefusal, ClusterReply};
use job_records::{Change, Job};
use job_values::limits::LOOK_AHEAD;
use job_values::{Edition, JobId, JobSpec, Moment, NoMemory};
use std::alloc::Global;
use zone_texts::Zone;

/// The first due time of a job that is started at a moment.
fn first_after(schedule: &Schedule, zone: &Zone, at: Moment) -> Option<Moment>
    ensures { result ≡ first_time zone.now schedule.now at }
{
    match Moment::new(at.get() + LOOK_AHEAD) {
        Some(from) => schedule.after(from, zone),
        None => {
            law_after_rises();
            None
        }
    }
}

/// The first due time of a job's row that is started at a moment.
fn first_of(settings: Settings, row: &Job, at: Moment) -> Option<Moment>
    ensures { result ≡ first_time (zone_of settings row.now.spec) row.now.schedule at }
{
    let zone = zone_of(settings, &row.spec);
    first_after(&row.schedule, &zone, at)
}

/// The row of a job in this edition, due at this moment next. It runs where there is one.
pub fn turned(
    alloc: Global,
    row: &Job,
    edition: Edition,
    next: Option<Moment>,
) -> Result<Job, NoMemory>
    ensures { IfOk result (λ job. job ≡ turned_row edition next row.now) }
{
    let spec = row.spec.copy(alloc)?;
    let schedule = row.schedule.copy(alloc)?;
    Ok(Job {
        id: row.id,
        spec,
        schedule,
        running: next.is_some(),
        edition,
        next,
    })
}

/// The edition and the next time of a job that gets this schedule at a moment, or why it is refused.
fn find_again(
    row: &Job,
    schedule: &Schedule,
    zone: &Zone,
    at: Moment,
) -> Result<(Edition, Option<Moment>), ClusterRefusal>
    ensures found { IfOk result (λ found. again_reply row.now.edition (is_some row.now.next) (updated_time zone.now schedule.now at row.now.next) ≡ Updated found.0 found.1) }
    ensures refusal { IfErr result (λ why. again_reply row.now.edition (is_some row.now.next) (updated_time zone.now schedule.now at row.now.next) ≡ refused why) }
{
    let mut next = None;
    if row.next.is_some() {
        next = first_after(schedule, zone, at);
        if next.is_none() {
            return Err(ClusterRefusal::NoNext);
        }
    }
    match next_edition(row.edition) {
        Some(edition) => Ok((edition, next)),
        None => Err(ClusterRefusal::IdsSpent),
    }
}

/// A job is started, or started anew.
pub fn plan_start_job(seen: &Seen<'_>, at: Moment, job: JobId) -> Result<Prepared, NoMemory>
    requires { IsSound (kept_in seen.now) }
    ensures { IfOk result (IsPlanned (kept_in seen.now) (StartJob at job)) }
{
    let Some(row) = seen.records.job(job) else {
        return Ok(Prepared::refusal(seen.alloc, ClusterRefusal::NoJob));
    };
    let Some(next) = first_of(seen.settings, row, at) else {
        return Ok(Prepared::refusal(seen.alloc, ClusterRefusal::NoNext));
    };
    let Some(edition) = next_edition(row.edition) else {
        return Ok(Prepared::refusal(seen.alloc, ClusterRefusal::IdsSpent));
    };
    let started = turned(seen.alloc, row, edition, Some(next))?;
    let changes = one_change(seen.alloc, Change::PutJob(started))?;
    Ok(Prepared::changing(
        ClusterReply::Running(edition, next),
        changes,
        NodeChange::Nothing,
    ))
}

/// A job gets another spec; it runs on where it ran.
pub fn plan_update_job(
    seen: &Seen<'_>,
    at: Moment,
    job: JobId,
    spec: &JobSpec,
) -> Result<Prepared, NoMemory>
    requires { IsSound (kept_in seen.now) }
    ensures { IfOk result (IsPlanned (kept_in seen.now) (UpdateJob at job spec.now)) }
{
    let Some(row) = seen.records.job(job) else {
        return Ok(Prepared::refusal(seen.alloc, ClusterRefusal::NoJob));
    };
    if seen.records.group(spec.group).is_none() {
        return Ok(Prepared::refusal(seen.alloc, ClusterRefusal::NoGroup));
    }
    let schedule = match schedule_said(seen.alloc, spec)? {
        Ok(schedule) => schedule,
        Err(fault) => {
            let why = ClusterRefusal::BadSchedule(fault);
            return Ok(Prepared::refusal(seen.alloc, why));
        }
    };
    let zone = match zone_said(seen.settings, spec) {
        Ok(zone) => zone,
        Err(fault) => {
            let why = ClusterRefusal::BadZone(fault);
            return Ok(Prepared::refusal(seen.alloc, why));
        }
    };
    let (edition, next) = match find_again(row, &schedule, &zone, at) {
        Ok(found) => found,
        Err(why) => return Ok(Prepared::refusal(seen.alloc, why)),
    };
    let updated = Job {
        id: row.id,
        spec: spec.copy(seen.alloc)?,
        schedule,
        running: next.is_some(),
        edition,
        next,
    };
    let changes = one_change(seen.alloc, Change::PutJob(updated))?;
    Ok(Prepared::changing(
        ClusterReply::Updated(edition, next),
        changes,
        NodeChange::Nothing,
    ))
}
