//! Firings by hand.
ghost use Rattle.std.specs.Prelude.{◌≡◌, IfOk, unwrap_or};
ghost use Rattle.job_events.specs.declared.cluster.ClusterEvent.TheVariants.{TriggerJob};
ghost use Rattle.cluster_plan.specs.Kept.{IsSound, kept_in};
ghost use Rattle.cluster_plan.specs.Plans.{IsPlanned};

use cluster_plan::{NodeChange, Prepared, Seen};
use job_events::{ClusterRefusal, ClusterReply};
use job_records::Job;
use job_values::{AdminNo, JobId, Moment, NoMemory, ParamText, Seq, TriggerKind};
use log_opening::{Fired, fire_job};

/// The given parameter, or the job's own.
fn param_of<'a>(param: &'a Option<ParamText>, row: &'a Job) -> &'a ParamText
    ensures { result.now ≡ unwrap_or param.now row.now.spec.param }
{
    match param {
        Some(param) => param,
        None => &row.spec.param,
    }
}

/// A job is fired by hand, with this parameter or its own.
pub fn plan_fire(
    seen: &Seen<'_>,
    admin: AdminNo,
    at: Moment,
    job: JobId,
    param: &Option<ParamText>,
) -> Result<Prepared, NoMemory>
    requires { IsSound (kept_in seen.now) }
    ensures { IfOk result (IsPlanned (kept_in seen.now) (TriggerJob admin at job param.now)) }
{
    let alloc = seen.alloc;
    if !seen.is_running(admin) {
        let why = ClusterRefusal::NodeStopped(admin);
        return Ok(Prepared::refusal(alloc, why));
    }
    let Some(row) = seen.records.job(job) else {
        return Ok(Prepared::refusal(alloc, ClusterRefusal::NoJob));
    };
    let param = param_of(param, row);
    let pools = seen.pools_at(admin);
    let kind = TriggerKind::Manual;
    let fired = fire_job(alloc, seen.records, row, param, kind, at, pools)?;
    let Some(fired) = fired else {
        return Ok(Prepared::refusal(alloc, ClusterRefusal::IdsSpent));
    };
    let Fired {
        changes,
        entering,
        opened,
    } = fired;
    Ok(Prepared::changing(
        ClusterReply::Opened(opened),
        Seq::of(changes),
        NodeChange::Fires(admin, Seq::of(entering)),
    ))
}
