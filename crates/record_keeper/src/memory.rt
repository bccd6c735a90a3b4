//! A keeper in memory, with a list of the calls that are to fail.
ghost use Rattle.std.specs.Prelude.{◌≡◌, ◌↔◌, [], ◌++◌, Some, None, is_err, is_ok, IfOk, OnOk, OnErr, if◌then◌else◌};
ghost use Rattle.outside.specs.Causes.{HasCause, faults_after};
ghost use Rattle.outside.specs.Streams.{is_to_fail};
ghost use Rattle.job_records.specs.Changes.{AreAllowed, applied_all};
ghost use Rattle.record_keeper.specs.Keeping.{HasKeepCause, AreOf, version_answered};
ghost use Rattle.record_keeper.specs.declared.keeper.KeepError.TheVariants as keep;
ghost use Rattle.record_keeper.specs.declared.keeper.Loaded.TheVariants as loaded;
ghost use Rattle.record_keeper.specs.Memory.{tables_of, seen_memory, is_failed, after_call, after_save};

use super::keeper::{KeepError, Keeper, Loaded};
use job_records::{Change, Records};
use job_values::{NoMemory, Seq, Text};
use outside::Failed;
use std::alloc::Global;
use std::marker::Model;

/// Keeps the changes that were saved in memory, with a list of the calls that are to fail.
#[derive(Drop)]
pub struct MemoryKeeper {
    alloc: Global,
    saved: Vec<Change>,
    failing: Vec<u64>,
    calls: u64,
    faults: u64,
}

impl Model for MemoryKeeper {
    ghost use Rattle.job_records.specs.Tables.{no_rows};
    ghost use Rattle.job_records.specs.Changes.{AreAllowed};
    ghost use Rattle.record_keeper.specs.Memory.{KeeperMemory};

    ghost Value = { KeeperMemory };

    ghost view = { λ k. record { saved = k.saved.items; failing = k.failing.items; calls = k.calls; faults = k.faults } };

    ghost invariant = { λ k. AreAllowed no_rows k.saved.items };
}

/// Another change that says the same.
fn copy_change(alloc: Global, change: &Change) -> Result<Change, NoMemory>
    ensures { IfOk result (λ copy. copy ≡ change.now) }
{
    match change {
        Change::PutGroup(group) => Ok(Change::PutGroup(group.copy(alloc)?)),
        Change::PutJob(job) => Ok(Change::PutJob(job.copy(alloc)?)),
        Change::DropJob(id) => Ok(Change::DropJob(*id)),
        Change::PutLog(log) => Ok(Change::PutLog(log.copy(alloc)?)),
        Change::DropLog(id) => Ok(Change::DropLog(*id)),
        Change::PutRegistry(row) => Ok(Change::PutRegistry(row.copy(alloc)?)),
        Change::DropRegistry { key, value } => {
            let key = key.copy(alloc)?;
            let value = value.copy(alloc)?;
            Ok(Change::DropRegistry { key, value })
        }
        Change::LastIds(last) => Ok(Change::LastIds(*last)),
    }
}

/// Another list of the same changes.
fn copy_changes(alloc: Global, changes: &[Change]) -> Result<Vec<Change>, NoMemory>
    ensures { IfOk result (λ copy. copy.items ≡ changes.now) }
{
    let mut copy = Vec::with_capacity(alloc, changes.len())?;
    for change in changes {
        let change = copy_change(alloc, change)?;
        copy.push(change).map_err(|_| NoMemory)?;
    }
    Ok(copy)
}

impl MemoryKeeper {
    /// A keeper to which nothing was saved. None of its calls fails but for want of memory.
    pub fn new(alloc: Global) -> MemoryKeeper
        ensures { result ≡ record { saved = []; failing = []; calls = 0; faults = 0 } }
    {
        MemoryKeeper {
            alloc,
            saved: Vec::new(alloc),
            failing: Vec::new(alloc),
            calls: 0,
            faults: 0,
        }
    }

    /// The same with the numbers of the calls that are to fail, counted from 1.
    pub fn failing(mut self, calls: Vec<u64>) -> MemoryKeeper
        ensures { result ≡ record self { failing = calls.items } }
    {
        self.failing = calls;
        self
    }

    /// The changes that were saved, in order.
    pub fn saved(&self) -> &[Change]
        ensures { result.now ≡ self.now.saved }
    {
        self.saved.as_slice()
    }

    /// Counts a call, which fails where it is to.
    fn called(&mut self) -> Result<(), Failed>
        ensures fails { is_err result ≡ is_to_fail self.old.calls self.old.failing }
        ensures after { self.new ≡ record self.old { calls = faults_after self.old.calls; faults = if is_err result then faults_after self.old.faults else self.old.faults } }
        ensures cause { HasCause self.old.faults self.new.faults result }
    {
        self.calls = self.calls.saturating_add(1);
        if self.failing.contains(&self.calls) {
            self.faults = self.faults.saturating_add(1);
            return Err(Failed);
        }
        Ok(())
    }

    /// Keeps copies of these changes behind the others. An `Err` changes nothing.
    fn keep(&mut self, changes: &Seq<Change>) -> Result<(), NoMemory>
        requires allowed { AreAllowed (tables_of self.old) changes.now }
        ensures kept { self.new ≡ record self.old { saved = if is_ok result then self.old.saved ++ changes.now else self.old.saved } }
    {
        let mut copies = copy_changes(self.alloc, changes.as_slice())?;
        self.saved.append(&mut copies)?;
        Ok(())
    }

    /// The rows that the saved changes make.
    fn records(&self) -> Result<Records, NoMemory>
        ensures { IfOk result (λ records. records.kept ≡ tables_of self.now) }
    {
        let changes = Seq::of(copy_changes(self.alloc, self.saved.as_slice())?);
        let mut records = Records::new(self.alloc);
        records.reserve(&changes)?;
        records.apply(changes);
        Ok(records)
    }
}

impl Keeper for MemoryKeeper {
    ghost use Rattle.record_keeper.specs.Memory.{seen_memory};

    ghost seen = { seen_memory };

    fn attach(&mut self, _file: Option<&Text>) -> Result<(), KeepError>
        ensures fails { result ≡ (if is_to_fail self.old.calls self.old.failing then Err keep.Failed else Ok tt) }
        ensures after { self.new ≡ after_call self.old result }
        ensures tables { (seen_memory self.new).tables ≡ (seen_memory self.old).tables }
        ensures version { (seen_memory self.new).version ≡ None }
        ensures cause { HasKeepCause (seen_memory self.old) (seen_memory self.new) result }
    {
        match self.called() {
            Ok(()) => Ok(()),
            Err(Failed) => Err(KeepError::Failed),
        }
    }

    fn save(&mut self, changes: &Seq<Change>) -> Result<(), KeepError>
        requires allowed { AreAllowed (tables_of self.old) changes.now }
        ensures fails { is_failed result ≡ is_to_fail self.old.calls self.old.failing }
        ensures after { self.new ≡ after_save self.old changes.now result }
        ensures saved { OnOk result ((seen_memory self.new).tables ≡ Some (applied_all (tables_of self.old) changes.now)) }
        ensures left { OnErr result ((seen_memory self.new).tables ≡ (seen_memory self.old).tables) }
        ensures version { (seen_memory self.new).version ≡ (seen_memory self.old).version }
        ensures cause { HasKeepCause (seen_memory self.old) (seen_memory self.new) result }
    {
        match self.called() {
            Ok(()) => match self.keep(changes) {
                Ok(()) => Ok(()),
                Err(NoMemory) => Err(KeepError::NoMemory),
            },
            Err(Failed) => Err(KeepError::Failed),
        }
    }

    fn load(&mut self) -> Result<Loaded, KeepError>
        ensures fails { is_failed result ≡ is_to_fail self.old.calls self.old.failing }
        ensures after { self.new ≡ after_call self.old result }
        ensures told { IfOk result (AreOf (tables_of self.old)) }
        ensures empty { IfOk result (λ l. (l ≡ loaded.Empty) ↔ (self.old.saved ≡ [])) }
        ensures tables { (seen_memory self.new).tables ≡ (seen_memory self.old).tables }
        ensures version { (seen_memory self.new).version ≡ version_answered result }
        ensures cause { HasKeepCause (seen_memory self.old) (seen_memory self.new) result }
    {
        match self.called() {
            Ok(()) => {
                if self.saved.is_empty() {
                    return Ok(Loaded::Empty);
                }
                match self.records() {
                    Ok(records) => Ok(Loaded::Tables(records)),
                    Err(NoMemory) => Err(KeepError::NoMemory),
                }
            }
            Err(Failed) => Err(KeepError::Failed),
        }
    }

    fn faults(&self) -> u64
        ensures { result ≡ self.now.faults }
    {
        self.faults
    }
}
