//! How changes are applied to the records.
ghost use Rattle.std.specs.Prelude.{◌≡◌, ℕ, ◌+◌, ◌-◌, ◌<◌, ◌≤◌, [], ◌∷◌, length, take, drop, vec_len, OnOk};
ghost use Rattle.job_records.specs.Rules.{KeepsRules};
ghost use Rattle.job_records.specs.Changes.{applied, applied_all, AreAllowed};
ghost use Rattle.job_records.specs.DropBatches.{AreDrops, AreRegistryDrops};
ghost use Rattle.job_records.specs.Room.{HasRoom, HasNoLessRoom, KeepsRoom};

use super::change::Change;
use super::drop_batches::first_drops;
use super::drops::Dropped;
use super::records::Records;
use super::registry_batches::{drop_registrations, first_registry_drops};
use super::registry_edits::{drop_registration, put_registration};
use job_values::Seq;
use rising_rows::put;
use std::mem::replace;

impl Records {
    /// Applies one change, for which there is room.
    fn apply_one(&mut self, change: Change)
        requires allowed { KeepsRules (applied self.old.kept change) }
        requires room { HasRoom self.old.room (change ∷ []) }
        ensures kept { self.new.kept ≡ applied self.old.kept change }
        ensures room { KeepsRoom self.old.room self.new.room (change ∷ []) }
    {
        match change {
            Change::PutGroup(group) => put(&mut self.groups, group),
            Change::PutJob(job) => self.jobs.put(job),
            Change::DropJob(id) => self.jobs.take(id),
            Change::PutLog(log) => self.logs.put(log),
            Change::DropLog(id) => self.logs.take(id),
            Change::PutRegistry(row) => put_registration(&mut self.registry, row),
            Change::DropRegistry { key, value } => drop_registration(
                &mut self.registry,
                &key,
                &value,
            ),
            Change::LastIds(last) => self.last = last,
        }
    }

    /// Applies drops of one list, in one pass.
    fn apply_drops(&mut self, kind: Dropped, drops: &[Change])
        requires drops { AreDrops kind drops.now }
        requires allowed { AreAllowed self.old.kept drops.now }
        ensures kept { self.new.kept ≡ applied_all self.old.kept drops.now }
        ensures room { HasNoLessRoom self.old.room self.new.room }
    {
        match kind {
            Dropped::Job => self.jobs.take_all(drops),
            Dropped::Log => self.logs.take_all(drops),
        }
    }

    /// Applies drops of registrations, in one pass.
    fn apply_registry_drops(&mut self, drops: &[Change])
        requires drops { AreRegistryDrops drops.now }
        requires allowed { AreAllowed self.old.kept drops.now }
        ensures kept { self.new.kept ≡ applied_all self.old.kept drops.now }
        ensures room { HasNoLessRoom self.old.room self.new.room }
    {
        drop_registrations(&mut self.registry, drops);
    }

    /// Applies the change at a place, or the batch of drops by ids that begins there, and answers how
    /// many changes that were. It takes a single change out of the list.
    fn apply_by_ids(&mut self, changes: &mut Vec<Change>, at: usize) -> usize
        requires within { at < vec_len changes.old }
        requires allowed { AreAllowed self.old.kept (drop at changes.old.items) }
        requires room { HasRoom self.old.room (drop at changes.old.items) }
        ensures some { 1 ≤ result }
        ensures within { at + result ≤ vec_len changes.old }
        ensures kept { self.new.kept ≡ applied_all self.old.kept (take result (drop at changes.old.items)) }
        ensures room { KeepsRoom self.old.room self.new.room (take result (drop at changes.old.items)) }
        ensures rest { drop (at + result) changes.new.items ≡ drop (at + result) changes.old.items }
        ensures length { vec_len changes.new ≡ vec_len changes.old }
    {
        let kind = match changes[at] {
            Change::DropJob(_) => Dropped::Job,
            _ => Dropped::Log,
        };
        let count = first_drops(kind, &changes[at..]);
        if count > 1 {
            self.apply_drops(kind, &changes[at..at + count]);
            return count;
        }
        let taken = Change::LastIds(self.last);
        let change = replace(&mut changes[at], taken);
        self.apply_one(change);
        1
    }

    /// The same, where a batch of dropped registrations may begin there too.
    fn apply_next(&mut self, changes: &mut Vec<Change>, at: usize) -> usize
        requires within { at < vec_len changes.old }
        requires allowed { AreAllowed self.old.kept (drop at changes.old.items) }
        requires room { HasRoom self.old.room (drop at changes.old.items) }
        ensures some { 1 ≤ result }
        ensures within { at + result ≤ vec_len changes.old }
        ensures kept { self.new.kept ≡ applied_all self.old.kept (take result (drop at changes.old.items)) }
        ensures room { KeepsRoom self.old.room self.new.room (take result (drop at changes.old.items)) }
        ensures rest { drop (at + result) changes.new.items ≡ drop (at + result) changes.old.items }
        ensures length { vec_len changes.new ≡ vec_len changes.old }
    {
        let count = first_registry_drops(&changes[at..]);
        if count > 1 {
            self.apply_registry_drops(&changes[at..at + count]);
            return count;
        }
        self.apply_by_ids(changes, at)
    }

    /// Applies changes, for which `reserve` made room. Each must be allowed after those before it.
    /// It moves the rows in and takes no memory.
    pub fn apply(&mut self, changes: Seq<Change>)
        requires room { HasRoom self.old.room changes }
        requires allowed { AreAllowed self.old.kept changes }
        ensures { self.new.kept ≡ applied_all self.old.kept changes }
    {
        let mut changes = changes.into_vec();
        let mut at = 0;
        while at < changes.len() {
            at += self.apply_next(&mut changes, at);
        }
    }
}
