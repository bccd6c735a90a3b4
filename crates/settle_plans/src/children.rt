//! The children that a result fires, one after another.
ghost use Rattle.std.specs.Prelude.{◌≤◌, [], ◌∷◌, IfOk};
ghost use Rattle.job_values.specs.declared.limits.TheConstants.{LAST_LOG_ID};
ghost use Rattle.cluster_plan.specs.Kept.{pools_in};
ghost use Rattle.log_opening.specs.Series.{FiresAll};
ghost use Rattle.settle_plans.specs.Children.{children_at, FiresChildren};

use cluster_plan::Entering;
use job_events::FiredChild;
use job_records::{Change, Records};
use job_values::{JobId, Moment, NoMemory, TriggerKind};
use log_opening::{Openings, open_job, opened_changes, push_row};
use std::alloc::Global;
use trigger_pool::Pools;

/// What was opened so far, and the children that fired, each with its logs.
#[derive(Drop)]
pub struct ChildrenSoFar<'a> {
    pub openings: Openings<'a>,
    pub fired: Vec<FiredChild>,
}

/// What the children of a result change and tell.
#[derive(Drop)]
pub struct FiredChildren {
    pub changes: Vec<Change>,
    pub entering: Vec<Entering>,
    pub children: Vec<FiredChild>,
}

/// Fires a child; false where the ids are spent.
fn fire_child(
    alloc: Global,
    records: &Records,
    at: Moment,
    child: JobId,
    so_far: &mut ChildrenSoFar<'_>,
) -> Result<bool, NoMemory>
    requires { so_far.old.openings.last ≤ LAST_LOG_ID }
    ensures { IfOk result (FiresAll (children_at at) records.now.kept (child ∷ []) so_far.old.openings so_far.new.openings so_far.old.fired.items so_far.new.fired.items) }
{
    let kind = TriggerKind::Parent;
    let opened = open_job(alloc, records, kind, at, child, &mut so_far.openings)?;
    let Some(opened) = opened else {
        return Ok(false);
    };
    push_row(&mut so_far.fired, FiredChild { job: child, opened })?;
    Ok(true)
}

/// Fires children in order; false where the ids are spent.
fn fire_each(
    alloc: Global,
    records: &Records,
    at: Moment,
    children: &[JobId],
    so_far: &mut ChildrenSoFar<'_>,
) -> Result<bool, NoMemory>
    requires { so_far.old.openings.last ≤ LAST_LOG_ID }
    ensures { IfOk result (FiresAll (children_at at) records.now.kept children.now so_far.old.openings so_far.new.openings so_far.old.fired.items so_far.new.fired.items) }
{
    for child in children {
        let fits = fire_child(alloc, records, at, *child, so_far)?;
        if !fits {
            return Ok(false);
        }
    }
    Ok(true)
}

/// Fires children in order, for these pools; None where the ids are spent.
pub fn fire_children(
    alloc: Global,
    records: &Records,
    at: Moment,
    children: &[JobId],
    pools: &Pools,
) -> Result<Option<FiredChildren>, NoMemory>
    ensures { IfOk result (FiresChildren records.now.kept (pools_in pools.now.kept) at children.now) }
{
    let last = records.last_ids();
    let mut so_far = ChildrenSoFar {
        openings: Openings::new(alloc, last.log, pools),
        fired: Vec::new(alloc),
    };
    let fits = fire_each(alloc, records, at, children, &mut so_far)?;
    if !fits {
        return Ok(None);
    }
    let ChildrenSoFar { openings, fired } = so_far;
    let Openings {
        puts,
        entering,
        last: log,
        ..
    } = openings;
    let changes = opened_changes(alloc, last, log, puts)?;
    Ok(Some(FiredChildren {
        changes,
        entering,
        children: fired,
    }))
}
