//! Scans: their begin and their steps.
ghost use Rattle.std.specs.Prelude.{◌≡◌, true, [], ◌∷◌, ◌++◌, IfOk};
ghost use Rattle.job_events.specs.declared.cluster.ClusterEvent.TheVariants.{ScanBegin, ScanStep};
ghost use Rattle.job_events.specs.declared.cluster.ClusterReply.TheVariants.{Skip};
ghost use Rattle.cluster_plan.specs.declared.prepared.NodeChange.TheVariants as node;
ghost use Rattle.job_records.specs.declared.change.Change.TheVariants.{PutJob};
ghost use Rattle.cluster_history.specs.Pages.{begun};
ghost use Rattle.cluster_history.specs.Firings.{kind_of};
ghost use Rattle.cluster_history.specs.History.{History, accepted};
ghost use Rattle.cluster_history.specs.Looks.{job_with};
ghost use Rattle.cluster_history.specs.Nodes.{runs};
ghost use Rattle.cluster_plan.specs.Stands.{Stands};
ghost use Rattle.log_opening.specs.Firing.{FiresAs};
ghost use Rattle.cluster_plan.specs.Kept.{IsSound, kept_in, pools_in};
ghost use Rattle.cluster_plan.specs.Plans.{IsPlanned};
ghost use Rattle.scan_plans.specs.Steps.{StandsAt, begins, ticket_put, shots_decided, looks_at};

use super::looks::{Look, look_at, looked_row};
use super::pages::{Standing, next_entry, open_scan, page_at};
use cluster_history::PageEntry;
use cluster_plan::{NodeChange, Prepared, Seen};
use job_events::{ClusterRefusal, ClusterReply};
use job_records::{Change, Job, Records};
use job_values::limits::JOBS_PER_THREAD;
use job_values::{AdminNo, Case, Edition, JobId, Moment, NoMemory, Seq, TriggerKind};
use log_opening::{Fired, fire_job, nothing_fired, push_row};
use misfire_rules::Decision;
use std::alloc::Global;
use time_ring::Ticket;
use trigger_pool::Pools;

/// A scan that begins; an empty page begins none.
fn beginning(admin: AdminNo, at: Moment, page: Vec<PageEntry>) -> NodeChange
    ensures { result ≡ begins (begun admin at page.items) }
{
    match open_scan(admin, at, page) {
        Some(scan) => NodeChange::Begins(scan),
        None => NodeChange::Nothing,
    }
}

/// Why a look that fires does so.
fn fired_kind(case: Case) -> TriggerKind
    ensures { result ≡ kind_of case }
{
    match case {
        Case::Misfire => TriggerKind::Misfire,
        Case::Late => TriggerKind::Cron,
        Case::Early => TriggerKind::Cron,
    }
}

/// Opens the logs of a look, if it fires; None where the ids are spent.
fn fire_look(
    alloc: Global,
    records: &Records,
    row: &Job,
    at: Moment,
    decision: &Decision,
    pools: &Pools,
) -> Result<Option<Fired>, NoMemory>
    ensures { IfOk result (FiresAs records.now.kept.last (pools_in pools.now.kept) (shots_decided records.now.kept.groups at decision.now row.now)) }
{
    if decision.fire_now {
        let kind = fired_kind(decision.case);
        return fire_job(alloc, records, row, &row.spec.param, kind, at, pools);
    }
    Ok(Some(nothing_fired(alloc, records)))
}

/// The ticket for a time that is put, if one is.
fn ticket_for(row: &Job, put: &Option<Moment>) -> Option<Ticket>
    ensures { result ≡ ticket_put row.now put.now }
{
    let due = (*put)?;
    Some(Ticket {
        job: row.id,
        edition: row.edition,
        due,
    })
}

/// The changes with the put of a row behind them.
fn put_behind(mut changes: Vec<Change>, row: Job) -> Result<Vec<Change>, NoMemory>
    ensures { IfOk result (λ all. all.items ≡ changes.items ++ PutJob row ∷ []) }
{
    push_row(&mut changes, Change::PutJob(row))?;
    Ok(changes)
}

/// What a look answers and changes: the rows of its logs, and then that of its job.
fn looked(
    admin: AdminNo,
    row: &Job,
    due: Moment,
    decision: Decision,
    new: Job,
    fired: Fired,
) -> Result<Prepared, NoMemory>
    ensures { IfOk result (λ prepared. prepared ≡ looks_at admin row.now due decision new fired) }
{
    let Decision {
        case,
        put,
        next,
        ..
    } = decision;
    let Fired {
        changes,
        entering,
        opened,
    } = fired;
    let changes = put_behind(changes, new)?;
    let ticket = ticket_for(row, &put);
    Ok(Prepared::changing(
        ClusterReply::Look {
            job: row.id,
            case,
            due,
            next,
            put,
            opened,
        },
        Seq::of(changes),
        NodeChange::Steps(admin, ticket, Seq::of(entering)),
    ))
}

/// An admin takes the schedule lock, for the jobs that are due at a moment.
pub fn plan_scan(seen: &Seen<'_>, admin: AdminNo, at: Moment) -> Result<Prepared, NoMemory>
    requires { IsSound (kept_in seen.now) }
    ensures { IfOk result (IsPlanned (kept_in seen.now) (ScanBegin admin at)) }
{
    let alloc = seen.alloc;
    if !seen.is_running(admin) {
        let why = ClusterRefusal::NodeStopped(admin);
        return Ok(Prepared::refusal(alloc, why));
    }
    if let Some(scan) = seen.scan {
        return Ok(Prepared::refusal(alloc, ClusterRefusal::Busy(scan.owner)));
    }
    let threads = seen.settings.fast as usize + seen.settings.slow as usize;
    let limit = threads * JOBS_PER_THREAD as usize;
    let page = page_at(alloc, seen.records, limit, at)?;
    let count = page.len() as u64;
    Ok(Prepared::changing(
        ClusterReply::Begun(count),
        Seq::new(alloc),
        beginning(admin, at, page),
    ))
}

/// A step that skips its entry.
fn skip(seen: &Seen<'_>, admin: AdminNo, job: JobId) -> Prepared
    ensures { result ≡ record { reply = Skip job; changes = []; node = node.Steps admin None [] } }
{
    Prepared::changing(
        ClusterReply::Skip(job),
        Seq::new(seen.alloc),
        NodeChange::Steps(admin, None, Seq::new(seen.alloc)),
    )
}

/// A look at the row of the next entry's job.
fn plan_look(
    seen: &Seen<'_>,
    admin: AdminNo,
    at: Moment,
    edition: Edition,
    row: &Job,
) -> Result<Prepared, NoMemory>
    requires stands { StandsAt (kept_in seen.now).scan admin (record { entry = record { job = row.now.id; edition = edition }; at = at }) }
    requires found { job_with row.now.id (kept_in seen.now).tables.jobs ≡ Some row.now }
    requires runs { (h : History) → Stands (kept_in seen.now) (accepted h) → runs (accepted h) admin ≡ true }
    requires sound { IsSound (kept_in seen.now) }
    ensures { IfOk result (IsPlanned (kept_in seen.now) (ScanStep admin)) }
{
    let alloc = seen.alloc;
    let look = look_at(row, seen.settings, at, edition);
    let Some(look) = look else {
        return Ok(skip(seen, admin, row.id));
    };
    let Look { due, decision } = look;
    let pools = seen.pools_at(admin);
    let new = looked_row(alloc, row, &decision)?;
    let fired = fire_look(alloc, seen.records, row, at, &decision, pools)?;
    let Some(fired) = fired else {
        return Ok(Prepared::refusal(alloc, ClusterRefusal::IdsSpent));
    };
    looked(admin, row, due, decision, new, fired)
}

/// The owner of the lock looks at the next job of its page.
pub fn plan_step(seen: &Seen<'_>, admin: AdminNo) -> Result<Prepared, NoMemory>
    requires { IsSound (kept_in seen.now) }
    ensures { IfOk result (IsPlanned (kept_in seen.now) (ScanStep admin)) }
{
    let alloc = seen.alloc;
    if !seen.is_running(admin) {
        let why = ClusterRefusal::NodeStopped(admin);
        return Ok(Prepared::refusal(alloc, why));
    }
    let Some(Standing { entry, at }) = next_entry(seen.scan, admin) else {
        return Ok(Prepared::refusal(alloc, ClusterRefusal::NotScanning));
    };
    let PageEntry { job, edition } = entry;
    match seen.records.job(job) {
        Some(row) => plan_look(seen, admin, at, edition, row),
        None => Ok(skip(seen, admin, job)),
    }
}
