//! Opening logs: a firing's shards, one after another.
ghost use Rattle.std.specs.Prelude.{◌≡◌, ◌+◌, ◌-◌, ◌<◌, ◌≤◌, ◌∷◌, [], ◌++◌, map, length, IfOk, OnOk};
ghost use Rattle.job_values.specs.declared.limits.TheConstants.{LAST_LOG_ID};
ghost use Rattle.job_records.specs.Rows.{row_with};
ghost use Rattle.cluster_history.specs.Groups.{addresses_in};
ghost use Rattle.cluster_history.specs.Firings.{shards, shots_by};
ghost use Rattle.cluster_plan.specs.Kept.{pools_in};
ghost use Rattle.cluster_history.specs.Openings.{pool_for, pool_of, one_more, log_of};
ghost use Rattle.log_opening.specs.Openings.{shot_in, pools_then, OpensBehind, told_of, put_of, entering_of, opening_changes};

use super::new_log::NewLog;
use super::rows::push_row;
use cluster_plan::Entering;
use job_events::Opened;
use job_records::{Change, Job, LastIds, Log, Records};
use job_values::limits::{FAILURE, FAST_LIMIT, SLOW_LIMIT};
use job_values::{
    JobId, JobSpec, LogId, Moment, NoMemory, ParamText, PoolAnswer, PoolKind, ResultText, Route,
    Seq, ShardNo, Text, TriggerKind,
};
use std::alloc::Global;
use trigger_pool::Pools;

/// What an event opens: what its logs put among the rows and into the pools of its admin, and by then
/// the last log id, and how many logs wait in each of the pools.
#[derive(Drop)]
pub struct Openings<'a> {
    pub pools: &'a Pools,
    pub puts: Vec<Change>,
    pub entering: Vec<Entering>,
    pub last: u64,
    pub fast: usize,
    pub slow: usize,
}

impl<'a> Openings<'a> {
    /// Nothing is opened yet.
    pub fn new(alloc: Global, last: u64, pools: &'a Pools) -> Openings<'a>
        ensures last { result.last ≡ last }
        ensures pools { pools_then result ≡ pools_in pools.now.kept }
        ensures puts { result.puts.items ≡ [] }
        ensures entering { result.entering.items ≡ [] }
    {
        Openings {
            pools,
            puts: Vec::new(alloc),
            entering: Vec::new(alloc),
            last,
            fast: pools.length(PoolKind::Fast),
            slow: pools.length(PoolKind::Slow),
        }
    }
}

/// Gives a log of a job its place in one of the pools, if the one that it goes to is not full.
fn take_place(openings: &mut Openings<'_>, job: JobId) -> PoolAnswer
    ensures answer { result ≡ pool_for ((pools_then openings.old).is_slow job) (pools_then openings.old) }
    ensures pools { pools_then openings.new ≡ one_more result (pools_then openings.old) }
    ensures last { openings.new.last ≡ openings.old.last }
    ensures puts { openings.new.puts.items ≡ openings.old.puts.items }
    ensures entering { openings.new.entering.items ≡ openings.old.entering.items }
{
    if openings.pools.is_slow(job) {
        if openings.slow < SLOW_LIMIT {
            openings.slow += 1;
            return PoolAnswer::Slow;
        }
        return PoolAnswer::Full;
    }
    if openings.fast < FAST_LIMIT {
        openings.fast += 1;
        return PoolAnswer::Fast;
    }
    PoolAnswer::Full
}

/// How many logs a firing opens: for a broadcast one for each address of the group, and one at least.
pub fn shard_count(records: &Records, spec: &JobSpec) -> u32
    ensures count { result ≡ shards spec.now.route (addresses_in (row_with (λ group. group.id) spec.now.group records.now.kept.groups)) }
    ensures most { result ≤ 256 }
{
    if spec.route != Route::ShardingBroadcast {
        return 1;
    }
    match records.group(spec.group) {
        Some(group) => (group.addresses.len() as u32).max(1),
        None => 1,
    }
}

/// The row of a log that is opened.
fn log_row(alloc: Global, new: &NewLog<'_>, opened: &Opened) -> Result<Log, NoMemory>
    ensures { IfOk result (λ log. log ≡ log_of (record { shot = shot_in new.now; log = opened.now.log; pool = opened.now.pool })) }
{
    let spec = &new.row.spec;
    let handler = spec.handler.copy(alloc)?;
    let param = new.param.copy(alloc)?;
    let trigger_code = match opened.pool {
        PoolAnswer::Full => FAILURE,
        _ => 0,
    };
    Ok(Log {
        id: opened.log,
        job: new.row.id,
        group: spec.group,
        address: None,
        handler,
        param,
        block: spec.block,
        route: spec.route,
        timeout: spec.timeout,
        index: new.index,
        total: new.total,
        retries: new.retries,
        kind: new.kind,
        time: new.time,
        trigger_code,
        result_time: None,
        result_code: 0,
        result_text: ResultText::of(Text::of(String::new(alloc))),
        marked: false,
    })
}

/// Opens a log.
pub fn open_log(
    alloc: Global,
    new: &NewLog<'_>,
    openings: &mut Openings<'_>,
) -> Result<Opened, NoMemory>
    requires { openings.old.last < LAST_LOG_ID }
    ensures opened { IfOk result (λ opened. opened ≡ record { log = openings.old.last + 1; pool = pool_of (pools_then openings.old) (shot_in new.now) }) }
    ensures opens { OnOk result (OpensBehind (shot_in new.now ∷ []) openings.old openings.new) }
{
    let id = LogId::new(openings.last + 1).unwrap();
    let job = new.row.id;
    let pool = take_place(openings, job);
    let opened = Opened { log: id, pool };
    let log = log_row(alloc, new, &opened)?;
    push_row(&mut openings.puts, Change::PutLog(log))?;
    push_row(&mut openings.entering, Entering { log: id, job })?;
    openings.last += 1;
    Ok(opened)
}

/// Opens the logs of a firing, in order of its shards.
pub fn open_logs(
    alloc: Global,
    row: &Job,
    param: &ParamText,
    kind: TriggerKind,
    time: Moment,
    total: u32,
    openings: &mut Openings<'_>,
) -> Result<Seq<Opened>, NoMemory>
    requires ids { openings.old.last + total ≤ LAST_LOG_ID }
    requires most { total ≤ 256 }
    ensures opened { IfOk result (λ opened. opened ≡ told_of (shots_by row.now param.now kind time total) openings.old) }
    ensures opens { OnOk result (OpensBehind (shots_by row.now param.now kind time total) openings.old openings.new) }
{
    let total_no = ShardNo::new(total).unwrap();
    let mut opened = Vec::new(alloc);
    for index in 0..total {
        let new = NewLog {
            row,
            param,
            kind,
            time,
            index: ShardNo::new(index).unwrap(),
            total: total_no,
            retries: row.spec.retries,
        };
        let one = open_log(alloc, &new, openings)?;
        push_row(&mut opened, one)?;
    }
    Ok(Seq::of(opened))
}

/// The changes of the rows once logs were opened: the new last log id, and the rows. None where no
/// log was opened.
pub fn opened_changes(
    alloc: Global,
    last: LastIds,
    log: u64,
    puts: Vec<Change>,
) -> Result<Vec<Change>, NoMemory>
    ensures { IfOk result (λ changes. changes.items ≡ opening_changes last log puts.items) }
{
    if puts.is_empty() {
        return Ok(puts);
    }
    let last = LastIds {
        group: last.group,
        job: last.job,
        log,
    };
    let mut changes = Vec::new(alloc);
    push_row(&mut changes, Change::LastIds(last))?;
    let mut puts = puts;
    changes.append(&mut puts).map_err(|_| NoMemory)?;
    Ok(changes)
}
