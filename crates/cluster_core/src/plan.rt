//! The plan of each event.
ghost use Rattle.std.specs.Prelude.{IfOk};
ghost use Rattle.cluster_plan.specs.Kept.{IsSound, kept_in};
ghost use Rattle.cluster_plan.specs.Plans.{IsPlanned};

use cluster_plan::{Prepared, Seen};
use job_events::ClusterEvent;
use job_plans::{
    plan_add_group, plan_add_job, plan_remove_job, plan_set_group, plan_start_job, plan_stop_job,
    plan_update_job,
};
use job_values::NoMemory;
use node_plans::{plan_ask, plan_read_log, plan_reopen, plan_start, plan_stop};
use registry_plans::{plan_registry, plan_registry_remove, plan_sweep};
use scan_plans::{plan_fire, plan_scan, plan_step, plan_turn};
use send_plans::{plan_sent, plan_take};
use settle_plans::{plan_callback, plan_clean, plan_lost, plan_monitor};

/// What an event will answer and change.
pub fn plan_event(seen: &Seen<'_>, event: &ClusterEvent) -> Result<Prepared, NoMemory>
    requires { IsSound (kept_in seen.now) }
    ensures { IfOk result (IsPlanned (kept_in seen.now) event.now) }
{
    match event {
        ClusterEvent::NodeStart(admin) => Ok(plan_start(seen, *admin)),
        ClusterEvent::NodeStop(admin) => plan_stop(seen, *admin),
        ClusterEvent::NodeAsk(admin) => Ok(plan_ask(seen, *admin)),
        ClusterEvent::AddGroup(app, kind, addresses) => {
            plan_add_group(seen, app, *kind, addresses)
        }
        ClusterEvent::SetGroup(group, kind, addresses) => {
            plan_set_group(seen, *group, *kind, addresses)
        }
        ClusterEvent::AddJob(spec) => plan_add_job(seen, spec),
        ClusterEvent::UpdateJob(at, job, spec) => plan_update_job(seen, *at, *job, spec),
        ClusterEvent::StartJob(at, job) => plan_start_job(seen, *at, *job),
        ClusterEvent::StopJob(job) => plan_stop_job(seen, *job),
        ClusterEvent::RemoveJob(job) => plan_remove_job(seen, *job),
        ClusterEvent::TriggerJob(admin, at, job, param) => {
            plan_fire(seen, *admin, *at, *job, param)
        }
        ClusterEvent::ScanBegin(admin, at) => plan_scan(seen, *admin, *at),
        ClusterEvent::ScanStep(admin) => plan_step(seen, *admin),
        ClusterEvent::Turn(admin, at) => plan_turn(seen, *admin, *at),
        ClusterEvent::Take(admin, pool, at, word) => plan_take(seen, *admin, *pool, *at, *word),
        ClusterEvent::Sent(log, address, code, start, end) => {
            plan_sent(seen, *log, address, *code, *start, *end)
        }
        ClusterEvent::Callback(admin, at, item) => plan_callback(seen, *admin, *at, item),
        ClusterEvent::Registry(at, group, key, value) => {
            plan_registry(seen, *at, group, key, value)
        }
        ClusterEvent::RegistryRemove(group, key, value) => {
            plan_registry_remove(seen, group, key, value)
        }
        ClusterEvent::Sweep(at) => plan_sweep(seen, *at),
        ClusterEvent::Monitor(admin, at) => plan_monitor(seen, *admin, *at),
        ClusterEvent::Lost(at) => plan_lost(seen, *at),
        ClusterEvent::Clean(at) => plan_clean(seen, *at),
        ClusterEvent::ReadLog(log) => plan_read_log(seen, *log),
        ClusterEvent::Reopen => plan_reopen(seen),
    }
}
