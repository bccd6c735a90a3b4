//! The logs of which an executor knows something, with their lines.
ghost use Rattle.std.specs.Prelude.{◌≡◌, ◌≤◌, ◌==◌, ◌&&◌, ℕ, nat_eq, not, [], if◌then◌else◌, take, filter, count_by, OnOk, MatchOption, None, Some};
ghost use Rattle.std.specs.List.{list_any};
ghost use Rattle.std.specs.VecDeque.{deque_len};
ghost use Rattle.indexmap.specs.IndexMap.{IsUnique};
ghost use Rattle.executor_history.specs.Past.{known_run, add_line, is_trimmed, known_of};
ghost use Rattle.executor_core.specs.Rows.{known_as, row_of, is_trimmed_run, LineRoom};

use super::ids::Ids;
use super::known_row::KnownRow;
use super::last_runs::LastRun;
use super::{known_rows, last_runs};
use indexmap::IndexMap;
use job_values::{LogId, LogLine, LogMoment, Moment, NoMemory};
use run_queues::Queues;
use std::alloc::Global;
use std::collections::VecDeque;
use std::marker::Model;

/// The known logs: a row for each, found by its id, and the last runs of all in order of their moments, of which a trim reads
/// the first ones.
#[derive(Drop)]
pub struct KnownLogs {
    rows: IndexMap<u64, KnownRow>,
    last_runs: VecDeque<LastRun>,
}

impl Model for KnownLogs {
    ghost use Rattle.std.specs.Prelude.{◌-◌, min};
    ghost use Rattle.std.specs.VecDeque.{deque_len, deque_capacity};
    ghost use Rattle.indexmap.specs.IndexMap.{spare};
    ghost use Rattle.executor_core.specs.Rows.{known_in, rooms_in, KnownView, AreLast};

    ghost Value = { KnownView };

    ghost view = { λ k. record {
      known = known_in k.rows.entries;
      lines = rooms_in k.rows.entries;
      room = min (spare k.rows) (deque_capacity k.last_runs - deque_len k.last_runs);
    } };

    ghost invariant = { λ k. AreLast k.rows.entries k.last_runs.items };
}

/// Lets the rows of the logs go that a trim drops, of so many first last runs.
fn drop_rows(
    rows: &mut IndexMap<u64, KnownRow>,
    runs: &VecDeque<LastRun>,
    old: usize,
    at: Moment,
    held: &Ids,
    queues: &Queues,
)
    requires once { IsUnique nat_eq rows.old }
    requires len { old ≤ deque_len runs.now }
    ensures known { (l : ℕ) → row_of l rows.new.entries ≡ (if list_any (λ run. l == run.log && is_trimmed_run at held.now.ids queues.now.on_runners run) (take old runs.now.items) then None else row_of l rows.old.entries) }
    ensures once { IsUnique nat_eq rows.new }
{
    for place in 0..old {
        if let Some(run) = runs.get(place) {
            if last_runs::trimmed(run, at, held, queues) {
                known_rows::drop_row(rows, run.log);
            }
        }
    }
}

impl KnownLogs {
    /// No logs. It takes no memory.
    pub fn new(alloc: Global) -> KnownLogs
        ensures { result.known ≡ [] }
    {
        KnownLogs {
            rows: IndexMap::new(alloc),
            last_runs: VecDeque::new(alloc),
        }
    }

    /// The row of a log.
    pub fn find(&self, log: LogId) -> Option<&KnownRow>
        ensures { MatchOption result (known_of log self.now.known ≡ None) (λ row. known_of log self.now.known ≡ Some (known_as log row.now)) }
    {
        known_rows::find(&self.rows, log)
    }

    /// Makes room for one more log.
    pub fn reserve(&mut self) -> Result<(), NoMemory>
        ensures known { self.new.known ≡ self.old.known }
        ensures room { OnOk result (1 ≤ self.new.room) }
    {
        self.rows.reserve(1)?;
        self.last_runs.reserve(1)?;
        Ok(())
    }

    /// Makes room for one more line of a log.
    pub fn reserve_line(&mut self, log: LogId) -> Result<(), NoMemory>
        ensures known { self.new.known ≡ self.old.known }
        ensures room { OnOk result (LineRoom log self.new.lines) }
    {
        known_rows::reserve_line(&mut self.rows, log)
    }

    /// Makes a log known by a run of it. It takes no memory.
    pub fn put(&mut self, alloc: Global, log: LogId, moment: LogMoment)
        requires { 1 ≤ self.old.room }
        ensures { self.new.known ≡ known_run log moment self.old.known }
    {
        prove!(log.get() > 0);
        let before = known_rows::last_moment(&self.rows, log);
        last_runs::renew(&mut self.last_runs, LastRun { moment, log }, before);
        known_rows::put_run(alloc, &mut self.rows, log, moment);
    }

    /// Puts a line behind the others of a log. It takes no memory.
    pub fn push_line(&mut self, log: LogId, line: LogLine)
        requires { LineRoom log self.old.lines }
        ensures { self.new.known ≡ add_line log line self.old.known }
    {
        known_rows::push_line(&mut self.rows, log, line);
    }

    /// Drops the logs that are neither held nor on a runner, and whose last run has a moment below this one.
    pub fn trim(&mut self, at: Moment, held: &Ids, queues: &Queues)
        ensures { self.new.known ≡ filter (λ k. not (is_trimmed at held.now.ids queues.now.on_runners k)) self.old.known }
    {
        let old = last_runs::old_len(&self.last_runs, at);
        drop_rows(&mut self.rows, &self.last_runs, old, at, held, queues);
        last_runs::drop_first(&mut self.last_runs, old, at, held, queues);
    }

    /// How many logs a trim drops.
    pub fn trimmed_len(&self, at: Moment, held: &Ids, queues: &Queues) -> u64
        ensures { result ≡ count_by (is_trimmed at held.now.ids queues.now.on_runners) self.now.known }
    {
        last_runs::trimmed_len(&self.last_runs, at, held, queues)
    }
}
