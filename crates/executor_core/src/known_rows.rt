//! The rows of the known logs, each found by the id of its log.
ghost use Rattle.std.specs.Prelude.{◌≡◌, ◌≤◌, ◌==◌, ℕ, nat_eq, if◌then◌else◌, OnOk, None, Some};
ghost use Rattle.std.specs.Option.{option_map, option_copied};
ghost use Rattle.indexmap.specs.IndexMap.{spare, IsUnique};
ghost use Rattle.executor_laws.specs.Kept.{lines_in, with_line};
ghost use Rattle.executor_core.specs.Rows.{known_as, row_of, room_in, line_room};

use super::known_row::KnownRow;
use indexmap::IndexMap;
use job_values::{LogId, LogLine, LogMoment, NoMemory};
use std::alloc::Global;

/// The row of a log.
pub(crate) fn find(rows: &IndexMap<u64, KnownRow>, log: LogId) -> Option<&KnownRow>
    ensures { option_map (known_as log) (option_copied result) ≡ row_of log rows.now.entries }
{
    rows.get(&log.get())
}

/// The moment of the last run of a log.
pub(crate) fn last_moment(rows: &IndexMap<u64, KnownRow>, log: LogId) -> Option<LogMoment>
    ensures { result ≡ option_map (λ k. k.moment) (row_of log rows.now.entries) }
{
    match rows.get(&log.get()) {
        None => None,
        Some(row) => Some(row.moment),
    }
}

/// Puts the row of a log that has none.
fn add_row(rows: &mut IndexMap<u64, KnownRow>, log: LogId, row: KnownRow)
    requires { 1 ≤ spare rows.old }
    ensures known { (l : ℕ) → row_of l rows.new.entries ≡ (if log == l then Some (known_as log row) else row_of l rows.old.entries) }
    ensures once { IsUnique nat_eq rows.new }
{
    let _new = rows.insert(log.get(), row);
}

/// Makes a log known by a run of it. There is room for one more row.
pub(crate) fn put_run(
    alloc: Global,
    rows: &mut IndexMap<u64, KnownRow>,
    log: LogId,
    moment: LogMoment,
)
    requires { 1 ≤ spare rows.old }
    ensures known { (l : ℕ) → row_of l rows.new.entries ≡ (if log == l then Some (record { log = log; moment = moment; lines = lines_in (row_of log rows.old.entries) }) else row_of l rows.old.entries) }
    ensures once { IsUnique nat_eq rows.new }
{
    match rows.get_mut(&log.get()) {
        Some(row) => row.moment = moment,
        None => add_row(
            rows,
            log,
            KnownRow {
                moment,
                lines: Vec::new(alloc),
            },
        ),
    }
}

/// Makes room for one more line in a row.
fn reserve_row(row: &mut KnownRow) -> Result<(), NoMemory>
    ensures moment { row.new.moment ≡ row.old.moment }
    ensures lines { row.new.lines.items ≡ row.old.lines.items }
    ensures room { OnOk result (1 ≤ room_in row.new) }
{
    row.lines.reserve(1)?;
    Ok(())
}

/// Makes room for one more line of a log.
pub(crate) fn reserve_line(rows: &mut IndexMap<u64, KnownRow>, log: LogId) -> Result<(), NoMemory>
    ensures known { (l : ℕ) → row_of l rows.new.entries ≡ row_of l rows.old.entries }
    ensures room { OnOk result (1 ≤ line_room log rows.new.entries) }
    ensures once { IsUnique nat_eq rows.new }
{
    match rows.get_mut(&log.get()) {
        None => Ok(()),
        Some(row) => reserve_row(row),
    }
}

/// Puts a line behind the others of a log. There is room for it.
pub(crate) fn push_line(rows: &mut IndexMap<u64, KnownRow>, log: LogId, line: LogLine)
    requires { 1 ≤ line_room log rows.old.entries }
    ensures known { (l : ℕ) → row_of l rows.new.entries ≡ (if log == l then with_line line (row_of log rows.old.entries) else row_of l rows.old.entries) }
    ensures once { IsUnique nat_eq rows.new }
{
    match rows.get_mut(&log.get()) {
        None => drop(line),
        Some(row) => row.lines.push_reserved(line),
    }
}

/// Lets the row of a log go, if it has one.
pub(crate) fn drop_row(rows: &mut IndexMap<u64, KnownRow>, log: LogId)
    ensures known { (l : ℕ) → row_of l rows.new.entries ≡ (if log == l then None else row_of l rows.old.entries) }
    ensures once { IsUnique nat_eq rows.new }
{
    let _gone = rows.swap_remove(&log.get());
}
