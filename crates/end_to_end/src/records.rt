//! The rows and their changes.
ghost use Rattle.std.specs.Prelude.{◌≡◌, map};

use job_records::{Change, LastIds, Log, Records, RegistryRow};
use job_values::{
    Block, BoundedText, GroupId, JobId, LogId, Moment, Retries, Route, Seq, ShardNo, Text, Timeout,
    TriggerKind,
};
use rising_rows::Keyed;
use std::alloc::Global;
use std::process::Abort;

fn text<const LEAST: usize, const MOST: usize>(
    rt: &impl Abort,
    alloc: Global,
    text: &str,
) -> BoundedText<LEAST, MOST> {
    let text = Text::copied(alloc, text).expect(rt, "memory");
    BoundedText::new(text).expect(rt, "a text within its bounds")
}

fn log(rt: &impl Abort, alloc: Global, id: u64, code: i32) -> Log {
    Log {
        id: LogId::new(id).expect(rt, "a log id"),
        job: JobId::new(1).expect(rt, "a job id"),
        group: GroupId::new(1).expect(rt, "a group id"),
        address: None,
        handler: text(rt, alloc, "work"),
        param: text(rt, alloc, ""),
        block: Block::SerialExecution,
        route: Route::First,
        timeout: Timeout::new(0).expect(rt, "a timeout"),
        index: ShardNo::new(0).expect(rt, "a shard"),
        total: ShardNo::new(1).expect(rt, "a number of shards"),
        retries: Retries::new(0).expect(rt, "a number of retries"),
        kind: TriggerKind::Cron,
        time: Moment::new(10_000).expect(rt, "a moment"),
        trigger_code: code,
        result_time: None,
        result_code: 0,
        result_text: text(rt, alloc, ""),
        marked: false,
    }
}

fn registration(rt: &impl Abort, alloc: Global, key: &str, value: &str, beat: u64) -> RegistryRow {
    RegistryRow {
        key: text(rt, alloc, key),
        value: text(rt, alloc, value),
        beat: Moment::new(beat).expect(rt, "a moment"),
    }
}

fn last_ids(group: u32, job: u32, log: u64) -> Change {
    Change::LastIds(LastIds { group, job, log })
}

fn allows(rt: &impl Abort, alloc: Global, records: &Records, change: Change) -> bool {
    records.allows(alloc, &change).expect(rt, "memory")
}

/// Applies a change that must be allowed.
fn put(rt: &impl Abort, alloc: Global, records: &mut Records, change: Change) {
    let allowed = records.allows(alloc, &change).expect(rt, "memory");
    assert!(rt; allowed);
    let mut changes = Seq::new(alloc);
    changes.push(change).expect(rt, "memory");
    records.reserve(&changes).expect(rt, "memory");
    records.apply(changes);
}

fn has_ids<R: Keyed>(rows: &[R], ids: &[u64]) -> bool {
    rows.len() == ids.len() && rows.iter().zip(ids).all(|(row, id)| row.key() == *id)
}

/// Applies drops of these logs.
fn drop_logs(rt: &impl Abort, alloc: Global, records: &mut Records, ids: &[LogId]) {
    let mut drops = Vec::new(alloc);
    for id in ids {
        drops.push(Change::DropLog(*id)).expect(rt, "memory");
    }
    let drops = Seq::of(drops);
    let _rules = records.last_ids();
    records.reserve(&drops).expect(rt, "memory");
    records.apply(drops);
}

#[test]
fn logs_are_dropped_in_runs(rt: HostRuntime) {
    let alloc = rt.alloc();
    let mut records = Records::new(alloc);
    put(&rt, alloc, &mut records, last_ids(0, 0, 9));
    for id in [5, 1, 2, 3, 4, 6, 7, 8, 9] {
        let log = log(&rt, alloc, id, 0);
        put(&rt, alloc, &mut records, Change::PutLog(log));
    }
    assert!(rt; has_ids(records.logs(), &[1, 2, 3, 4, 5, 6, 7, 8, 9]));
    let drops = [1, 4, 5, 2, 9, 3].map(|n| LogId::new(n).expect(&rt, "a log id"));
    drop_logs(&rt, alloc, &mut records, &drops);
    assert!(rt; has_ids(records.logs(), &[6, 7, 8]));
    assert!(rt;
        !allows(&rt, alloc, &records, last_ids(0, 0, 7)),
        "log 8 is there"
    );
}

/// The keys, values and beats of the registrations, in order.
fn has_registrations(records: &Records, rows: &[(&str, &str, u64)]) -> bool {
    records.registry().len() == rows.len()
        && records.registry().iter().zip(rows).all(|(row, said)| {
            row.key.as_str() == said.0 && row.value.as_str() == said.1 && row.beat.get() == said.2
        })
}

#[test]
fn registrations_rise_by_key_and_value(rt: HostRuntime) {
    let alloc = rt.alloc();
    let mut records = Records::new(alloc);
    for (key, value, beat) in [
        ("b", "y", 1),
        ("b", "x", 2),
        ("a", "z", 3),
        ("ab", "x", 4),
        ("b", "y", 5),
    ] {
        let row = registration(&rt, alloc, key, value, beat);
        put(&rt, alloc, &mut records, Change::PutRegistry(row));
    }
    let rows = [("a", "z", 3), ("ab", "x", 4), ("b", "x", 2), ("b", "y", 5)];
    assert!(rt; has_registrations(&records, &rows));
}
