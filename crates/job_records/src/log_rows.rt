//! The rows of logs, with the index of the failed and the awaited ones.
ghost use Rattle.std.specs.Prelude.{◌≡◌, ◌+◌, ◌≤◌, false, [], OnOk};
ghost use Rattle.rising_rows.specs.Rising.{row_with, put_row, without, without_all, RisesFrom};
ghost use Rattle.row_indexes.specs.Entries.{passes};
ghost use Rattle.row_indexes.specs.LogLists.{moved};
ghost use Rattle.job_records.specs.DropBatches.{dropped_id};
ghost use Rattle.job_records.specs.LogClasses.{is_unmarked, is_awaited, log_ids};

use super::change::Change;
use super::log::Log;
use job_values::{LogId, NoMemory};
use rising_rows::{Keyed, put, row_of, take, take_all};
use row_indexes::{LogClass, LogIndex};
use std::alloc::Global;
use std::marker::Model;

/// The logs in order of their ids, and the ids of the failed and of the awaited ones.
#[derive(Drop)]
pub(crate) struct LogRows {
    logs: Vec<Log>,
    index: LogIndex,
}

impl Model for LogRows {
    ghost use Rattle.std.specs.Prelude.{◌≡◌, ◌-◌, min, vec_len, vec_capacity};
    ghost use Rattle.rising_rows.specs.Rising.{RisesFrom};
    ghost use Rattle.job_records.specs.declared.log.Log.{Log};
    ghost use Rattle.job_records.specs.LogClasses.{is_unmarked, is_awaited, log_ids};
    ghost use Rattle.job_records.specs.KeptRows.{KeptRows};

    ghost Value = { KeptRows Log };

    ghost view = { λ l. record { rows = l.logs.items; room = min (vec_capacity l.logs - vec_len l.logs) l.index.room } };

    ghost invariant = { λ l. RisesFrom (λ log. log.id) 0 l.logs.items × (l.index.failed ≡ log_ids is_unmarked l.logs.items) × (l.index.awaited ≡ log_ids is_awaited l.logs.items) };
}

/// The lists of the index that a log is in.
fn class_of(log: &Log) -> LogClass
    ensures failed { result.failed ≡ is_unmarked log.now }
    ensures awaited { result.awaited ≡ is_awaited log.now }
{
    LogClass {
        failed: log.is_failed() && !log.marked,
        awaited: log.is_awaited(),
    }
}

/// Those that the log with this id is in; none where there is no such log.
fn class_with(logs: &[Log], id: LogId) -> LogClass
    requires { RisesFrom (λ log. log.id) 0 logs.now }
    ensures failed { result.failed ≡ passes is_unmarked (row_with (λ log. log.id) id logs.now) }
    ensures awaited { result.awaited ≡ passes is_awaited (row_with (λ log. log.id) id logs.now) }
    ensures least { 1 ≤ id }
{
    match row_of(logs, id.get()) {
        Some(log) => class_of(log),
        None => LogClass {
            failed: false,
            awaited: false,
        },
    }
}

/// Drops the log with this id from the index, if there is one.
fn drop_one(index: &mut LogIndex, logs: &[Log], id: u64)
    requires { RisesFrom (λ log. log.id) 0 logs.now }
    ensures failed { index.new.failed ≡ moved id (passes is_unmarked (row_with (λ log. log.id) id logs.now)) false index.old.failed }
    ensures awaited { index.new.awaited ≡ moved id (passes is_awaited (row_with (λ log. log.id) id logs.now)) false index.old.awaited }
    ensures room { index.old.room ≤ index.new.room }
{
    if let Some(log) = row_of(logs, id) {
        index.drop_log(log.id, class_of(log));
    }
}

/// Drops the logs from the index that have the ids of these drops: a binary search for each.
fn drop_each(index: &mut LogIndex, logs: &[Log], drops: &[Change])
    requires rising { RisesFrom (λ log. log.id) 0 logs.now }
    requires failed { index.old.failed ≡ log_ids is_unmarked logs.now }
    requires awaited { index.old.awaited ≡ log_ids is_awaited logs.now }
    ensures failed { index.new.failed ≡ log_ids is_unmarked (without_all (λ log. log.id) dropped_id drops.now logs.now) }
    ensures awaited { index.new.awaited ≡ log_ids is_awaited (without_all (λ log. log.id) dropped_id drops.now logs.now) }
    ensures room { index.old.room ≤ index.new.room }
{
    for drop in drops {
        drop_one(index, logs, drop.key());
    }
}

impl LogRows {
    pub(crate) fn new(alloc: Global) -> LogRows
        ensures { result.rows ≡ [] }
    {
        LogRows {
            logs: Vec::new(alloc),
            index: LogIndex::new(alloc),
        }
    }

    pub(crate) fn as_slice(&self) -> &[Log]
        ensures value { result.now ≡ self.now.rows }
    {
        self.logs.as_slice()
    }

    pub(crate) fn index(&self) -> &LogIndex
        ensures rising { RisesFrom (λ log. log.id) 0 self.now.rows }
        ensures failed { result.now.failed ≡ log_ids is_unmarked self.now.rows }
        ensures awaited { result.now.awaited ≡ log_ids is_awaited self.now.rows }
    {
        &self.index
    }

    /// Makes room for `more` logs. It changes no row, whatever it answers.
    pub(crate) fn reserve(&mut self, more: usize) -> Result<(), NoMemory>
        ensures ok { OnOk result (more ≤ self.new.room) }
        ensures same { self.new.rows ≡ self.old.rows }
        ensures no_less { self.old.room ≤ self.new.room }
    {
        self.logs.reserve(more)?;
        self.index.reserve(more)
    }

    /// Puts a log, for which there is room. What is known of the one with its id is read before.
    pub(crate) fn put(&mut self, log: Log)
        requires { 1 ≤ self.old.room }
        ensures rows { self.new.rows ≡ put_row (λ log. log.id) log self.old.rows }
        ensures room { self.old.room ≤ self.new.room + 1 }
    {
        let old = class_with(self.logs.as_slice(), log.id);
        self.index.change(log.id, old, class_of(&log));
        put(&mut self.logs, log);
    }

    /// Takes the log with this id out, if there is one.
    pub(crate) fn take(&mut self, id: LogId)
        ensures rows { self.new.rows ≡ without (λ log. log.id) id self.old.rows }
        ensures room { self.old.room ≤ self.new.room }
    {
        drop_one(&mut self.index, self.logs.as_slice(), id.get());
        take(&mut self.logs, id.get());
    }

    /// Takes all logs out that have the ids of these drops: one pass over the logs.
    pub(crate) fn take_all(&mut self, drops: &[Change])
        requires { RisesFrom dropped_id 0 drops.now }
        ensures rows { self.new.rows ≡ without_all (λ log. log.id) dropped_id drops.now self.old.rows }
        ensures room { self.old.room ≤ self.new.room }
    {
        drop_each(&mut self.index, self.logs.as_slice(), drops);
        take_all(&mut self.logs, drops);
    }
}
