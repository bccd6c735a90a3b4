//! One firing of a job, with all its logs, and one log by itself.
ghost use Rattle.std.specs.Prelude.{◌≡◌, [], ◌∷◌, IfOk};
ghost use Rattle.cluster_history.specs.Firings.{shots_with};
ghost use Rattle.cluster_plan.specs.Kept.{pools_in};
ghost use Rattle.log_opening.specs.Firing.{FiresAs, FiresNothing};
ghost use Rattle.log_opening.specs.Openings.{shot_in, opening_changes};

use super::new_log::NewLog;
use super::opening::{Openings, open_log, open_logs, opened_changes, shard_count};
use super::rows::push_row;
use cluster_plan::Entering;
use job_events::Opened;
use job_records::{Change, Job, LastIds, Records};
use job_values::limits::LAST_LOG_ID;
use job_values::{Moment, NoMemory, ParamText, Seq, TriggerKind};
use std::alloc::Global;
use trigger_pool::Pools;

/// What a firing changes: the rows of its logs, their entries of the pools, and what a reply tells of them.
#[derive(Drop)]
pub struct Fired {
    pub changes: Vec<Change>,
    pub entering: Vec<Entering>,
    pub opened: Seq<Opened>,
}

/// What an event that opened these logs, from the last ids on, changes and tells.
fn fired_by(
    alloc: Global,
    last: LastIds,
    openings: Openings<'_>,
    opened: Seq<Opened>,
) -> Result<Fired, NoMemory>
    ensures changes { IfOk result (λ fired. fired.changes.items ≡ opening_changes last openings.entry.last openings.entry.puts.items) }
    ensures entering { IfOk result (λ fired. fired.entering ≡ openings.entry.entering) }
    ensures opened { IfOk result (λ fired. fired.opened ≡ opened) }
{
    let Openings {
        puts,
        entering,
        last: log,
        ..
    } = openings;
    let changes = opened_changes(alloc, last, log, puts)?;
    Ok(Fired {
        changes,
        entering,
        opened,
    })
}

/// A firing that opens no log.
pub fn nothing_fired(alloc: Global, records: &Records) -> Fired
    ensures { FiresNothing records.now.kept.last result }
{
    let _ = records.last_ids();
    Fired {
        changes: Vec::new(alloc),
        entering: Vec::new(alloc),
        opened: Seq::new(alloc),
    }
}

/// Opens the logs of a firing for these pools; None where the ids are spent.
pub fn fire_job(
    alloc: Global,
    records: &Records,
    row: &Job,
    param: &ParamText,
    kind: TriggerKind,
    at: Moment,
    pools: &Pools,
) -> Result<Option<Fired>, NoMemory>
    ensures { IfOk result (FiresAs records.now.kept.last (pools_in pools.now.kept) (shots_with records.now.kept.groups param.now kind at row.now)) }
{
    let last = records.last_ids();
    let total = shard_count(records, &row.spec);
    if last.log + total as u64 > LAST_LOG_ID {
        return Ok(None);
    }
    let mut openings = Openings::new(alloc, last.log, pools);
    let opened = open_logs(alloc, row, param, kind, at, total, &mut openings)?;
    let fired = fired_by(alloc, last, openings, opened)?;
    Ok(Some(fired))
}

/// Opens one log for these pools; None where the ids are spent.
pub fn fire_log(
    alloc: Global,
    records: &Records,
    new: &NewLog<'_>,
    pools: &Pools,
) -> Result<Option<Fired>, NoMemory>
    ensures { IfOk result (FiresAs records.now.kept.last (pools_in pools.now.kept) (shot_in new.now ∷ [])) }
{
    let last = records.last_ids();
    if last.log >= LAST_LOG_ID {
        return Ok(None);
    }
    let mut openings = Openings::new(alloc, last.log, pools);
    let one = open_log(alloc, new, &mut openings)?;
    let mut opened = Vec::new(alloc);
    push_row(&mut opened, one)?;
    let fired = fired_by(alloc, last, openings, Seq::of(opened))?;
    Ok(Some(fired))
}
