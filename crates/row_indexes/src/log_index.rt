//! The logs that are looked at as failed ones, and those that are awaited, by their ids.
ghost use Rattle.std.specs.Prelude.{◌≡◌, ◌+◌, ◌≤◌, true, false, [], map, All, slice_get, OnOk};
ghost use Rattle.row_indexes.specs.LogLists.{id_key, moved, IsLogKey};

use job_values::{LogId, NoMemory, Steps};
use sorted_blocks::{Key, SortedBlocks};
use std::alloc::Global;
use std::marker::Model;
use std::sync::ledger::Ledger;

/// The lists of the index that a log is in.
#[derive(Clone, Copy, PartialEq, Eq)]
pub struct LogClass {
    /// It is failed, and no monitor chose it.
    pub failed: bool,
    /// It was sent with success and has no result.
    pub awaited: bool,
}

/// Two lists of ids in rising order: the failed logs that no monitor chose, and the sent logs that
/// have no result.
#[derive(Drop)]
pub struct LogIndex {
    failed: SortedBlocks,
    awaited: SortedBlocks,
}

impl Model for LogIndex {
    ghost use Rattle.std.specs.Prelude.{All, map, min};
    ghost use Rattle.row_indexes.specs.LogLists.{LogLists, IsLogKey};

    ghost Value = { LogLists };

    ghost view = { λ l. record {
      failed = map (λ key. key.id) l.failed.keys;
      awaited = map (λ key. key.id) l.awaited.keys;
      room = min l.failed.room l.awaited.room;
    } };

    ghost invariant = { λ l. All IsLogKey l.failed.keys × All IsLogKey l.awaited.keys };
}

/// The key of a log.
fn log_key(log: LogId) -> Key
    ensures key { result ≡ id_key log }
    ensures bounds { IsLogKey result }
{
    Key {
        time: 0,
        id: log.get(),
    }
}

/// Moves a log into a list or out of it, for which there is room.
fn move_log(keys: &mut SortedBlocks, log: LogId, was: bool, is: bool)
    requires all { All IsLogKey keys.old.keys }
    requires room { 1 ≤ keys.old.room }
    ensures ids { map (λ key. key.id) keys.new.keys ≡ moved log was is (map (λ key. key.id) keys.old.keys) }
    ensures all { All IsLogKey keys.new.keys }
    ensures room { keys.old.room ≤ keys.new.room + 1 }
{
    match (was, is) {
        (false, true) => keys.put(log_key(log)),
        (true, false) => keys.drop_key(log_key(log)),
        _ => {}
    }
}

/// Drops a log from a list.
fn drop_from(keys: &mut SortedBlocks, log: LogId, was: bool)
    requires all { All IsLogKey keys.old.keys }
    ensures ids { map (λ key. key.id) keys.new.keys ≡ moved log was false (map (λ key. key.id) keys.old.keys) }
    ensures all { All IsLogKey keys.new.keys }
    ensures room { keys.old.room ≤ keys.new.room }
{
    if was {
        keys.drop_key(log_key(log));
    }
}

/// The log at a place of a list.
fn log_at(keys: &SortedBlocks, place: usize) -> Option<LogId>
    requires { All IsLogKey keys.now.keys }
    ensures { result ≡ slice_get (map (λ key. key.id) keys.now.keys) place }
{
    match keys.get(place) {
        Some(key) => LogId::new(key.id),
        None => None,
    }
}

impl LogIndex {
    /// The index without logs. It takes no memory before `reserve`.
    pub fn new(alloc: Global) -> LogIndex
        ensures failed { result.failed ≡ [] }
        ensures awaited { result.awaited ≡ [] }
    {
        LogIndex {
            failed: SortedBlocks::new(alloc),
            awaited: SortedBlocks::new(alloc),
        }
    }

    /// Makes room for `more` logs in either list. It changes no list, whatever it answers.
    pub fn reserve(&mut self, more: usize) -> Result<(), NoMemory>
        ensures ok { OnOk result (more ≤ self.new.room) }
        ensures failed { self.new.failed ≡ self.old.failed }
        ensures awaited { self.new.awaited ≡ self.old.awaited }
        ensures no_less { self.old.room ≤ self.new.room }
    {
        self.failed.reserve(more)?;
        self.awaited.reserve(more)
    }

    /// Moves a log between the lists, where it is in other ones than it was. There is room for it. It
    /// takes no memory.
    pub fn change(&mut self, log: LogId, old: LogClass, new: LogClass)
        requires { 1 ≤ self.old.room }
        ensures failed { self.new.failed ≡ moved log old.failed new.failed self.old.failed }
        ensures awaited { self.new.awaited ≡ moved log old.awaited new.awaited self.old.awaited }
        ensures room { self.old.room ≤ self.new.room + 1 }
    {
        move_log(&mut self.failed, log, old.failed, new.failed);
        move_log(&mut self.awaited, log, old.awaited, new.awaited);
    }

    /// Drops a log that was in these lists. It takes no memory.
    pub fn drop_log(&mut self, log: LogId, old: LogClass)
        ensures failed { self.new.failed ≡ moved log old.failed false self.old.failed }
        ensures awaited { self.new.awaited ≡ moved log old.awaited false self.old.awaited }
        ensures room { self.old.room ≤ self.new.room }
    {
        drop_from(&mut self.failed, log, old.failed);
        drop_from(&mut self.awaited, log, old.awaited);
    }

    /// The first failed log that no monitor chose; None exactly where there is none. It takes no
    /// memory.
    pub fn least_failed(&self) -> Option<LogId>
        ensures { result ≡ slice_get self.now.failed 0 }
    {
        log_at(&self.failed, 0)
    }

    /// The awaited log at a place, counted from 0; None exactly past the end. It makes one step, and
    /// takes no memory. It passes the blocks before that place, of which each has up to 255 logs.
    pub fn open_at<L: Ledger>(&self, place: usize, steps: &mut Steps<L>) -> Option<LogId>
        ensures log { result ≡ slice_get self.now.awaited place }
        ensures steps { steps.new ≡ steps.old + 1 }
    {
        steps.tick();
        log_at(&self.awaited, place)
    }
}
