//! What keeps the results that no admin took, as the bytes of a file, and a spool in memory.
ghost use Rattle.std.specs.Prelude.{◌≡◌, [], false, Some, true, is_err, IfOk, OnOk, OnErr, IsTrue, IsErr};
ghost use Rattle.outside.specs.Causes.{HasCause};
ghost use Rattle.outside.specs.Spools.{Stays, Tells, HasSpoolCause, Saves, Counts, after_call};
ghost use Rattle.outside.specs.Streams.{is_to_fail};

use super::failed::{Failed, one_more};
use job_values::{NoMemory, Seq, Text};
use std::alloc::Global;
use std::marker::Model;

/// Why a spool could not be opened or read.
#[derive(Clone, Copy, Debug, PartialEq, Eq)]
pub enum SpoolError {
    /// The outside failed. The count of faults rose in this call.
    Failed,
    /// Memory ran out.
    NoMemory,
}

/// The bytes of a file, which are replaced as a whole.
pub trait Spool: Drop {
    ghost use Rattle.outside.specs.Spools.{SpoolView};

    // The bytes, where they are told, whether the last save failed, and how often a call failed.
    ghost seen: { Self → SpoolView };

    /// Opens a file.
    fn attach(&mut self, file: &Text) -> Result<(), SpoolError>
        ensures stays { Stays (seen self.old) (seen self.new) }
        ensures cause { HasSpoolCause (seen self.old) (seen self.new) result };

    /// The bytes; none where there is no file yet.
    fn load(&mut self) -> Result<Seq<u8>, SpoolError>
        ensures told { IfOk result (Tells (seen self.old)) }
        ensures stays { Stays (seen self.old) (seen self.new) }
        ensures cause { HasSpoolCause (seen self.old) (seen self.new) result };

    /// Keeps these bytes in place of all others. A failed save leaves those.
    fn save(&mut self, bytes: &[u8]) -> Result<(), Failed>
        ensures saves { Saves (seen self.old) (seen self.new) bytes.now }
        ensures failed { (seen self.new).failed ≡ is_err result };
}

/// Keeps bytes in memory, with a list of the calls that are to fail. Want of memory in a save is counted
/// as a fault.
#[derive(Drop)]
pub struct MemorySpool {
    alloc: Global,
    bytes: Vec<u8>,
    failed: bool,
    failing: Vec<u64>,
    calls: u64,
    faults: u64,
}

impl Model for MemorySpool {
    ghost use Rattle.outside.specs.Spools.{SpoolMemory};

    ghost Value = { SpoolMemory };

    ghost view = { λ s. record {
      bytes = s.bytes.items;
      failed = s.failed;
      failing = s.failing.items;
      calls = s.calls;
      faults = s.faults;
    } };
}

impl MemorySpool {
    /// A spool that keeps these bytes. None of its calls fails but for want of memory.
    pub fn new(alloc: Global, bytes: Vec<u8>) -> MemorySpool
        ensures { result ≡ record { bytes = bytes.items; failed = false; failing = []; calls = 0; faults = 0 } }
    {
        MemorySpool {
            alloc,
            bytes,
            failed: false,
            failing: Vec::new(alloc),
            calls: 0,
            faults: 0,
        }
    }

    /// The same with the numbers of the calls that are to fail, counted from 1.
    pub fn failing(mut self, calls: Vec<u64>) -> MemorySpool
        ensures { result ≡ record self { failing = calls.items } }
    {
        self.failing = calls;
        self
    }

    /// The bytes that it keeps.
    pub fn bytes(&self) -> &[u8]
        ensures { result.now ≡ self.now.bytes }
    {
        self.bytes.as_slice()
    }

    /// How often it failed.
    pub fn faults(&self) -> u64
        ensures { result ≡ self.now.faults }
    {
        self.faults
    }

    /// Counts a call, which fails where it is to.
    fn called(&mut self) -> Result<(), Failed>
        ensures fails { is_err result ≡ is_to_fail self.old.calls self.old.failing }
        ensures after { self.new ≡ after_call self.old result }
        ensures bytes { self.new.bytes ≡ self.old.bytes }
        ensures failed { self.new.failed ≡ self.old.failed }
        ensures cause { HasCause self.old.faults self.new.faults result }
    {
        self.calls = one_more(self.calls);
        if self.failing.contains(&self.calls) {
            self.faults = one_more(self.faults);
            return Err(Failed);
        }
        Ok(())
    }

    /// Keeps a copy of these bytes, or those before for want of memory, which is counted.
    fn keep(&mut self, bytes: &[u8]) -> Result<(), Failed>
        ensures kept { OnOk result (self.new.bytes ≡ bytes.now) }
        ensures left { OnErr result (self.new.bytes ≡ self.old.bytes) }
        ensures calls { self.new.calls ≡ self.old.calls }
        ensures failing { self.new.failing ≡ self.old.failing }
        ensures cause { HasCause self.old.faults self.new.faults result }
    {
        match Vec::from_slice(self.alloc, bytes) {
            Ok(kept) => {
                self.bytes = kept;
                Ok(())
            }
            Err(_) => {
                self.faults = one_more(self.faults);
                Err(Failed)
            }
        }
    }

    /// A save, before its outcome is noted.
    fn try_save(&mut self, bytes: &[u8]) -> Result<(), Failed>
        ensures fails { IsTrue (is_to_fail self.old.calls self.old.failing) → IsErr result }
        ensures kept { OnOk result (self.new.bytes ≡ bytes.now) }
        ensures left { OnErr result (self.new.bytes ≡ self.old.bytes) }
        ensures counts { Counts self.old self.new }
        ensures cause { HasCause self.old.faults self.new.faults result }
    {
        match self.called() {
            Ok(()) => self.keep(bytes),
            Err(Failed) => Err(Failed),
        }
    }
}

impl Spool for MemorySpool {
    ghost use Rattle.outside.specs.Spools.{seen_memory};

    ghost seen = { seen_memory };

    fn attach(&mut self, _file: &Text) -> Result<(), SpoolError>
        ensures fails { is_err result ≡ is_to_fail self.old.calls self.old.failing }
        ensures counts { Counts self.old self.new }
        ensures stays { Stays (seen_memory self.old) (seen_memory self.new) }
        ensures cause { HasSpoolCause (seen_memory self.old) (seen_memory self.new) result }
    {
        match self.called() {
            Ok(()) => Ok(()),
            Err(Failed) => Err(SpoolError::Failed),
        }
    }

    fn load(&mut self) -> Result<Seq<u8>, SpoolError>
        ensures fails { IsTrue (is_to_fail self.old.calls self.old.failing) → IsErr result }
        ensures told { IfOk result (λ bytes. bytes ≡ self.old.bytes) }
        ensures counts { Counts self.old self.new }
        ensures stays { Stays (seen_memory self.old) (seen_memory self.new) }
        ensures cause { HasSpoolCause (seen_memory self.old) (seen_memory self.new) result }
    {
        match self.called() {
            Ok(()) => match Vec::from_slice(self.alloc, self.bytes.as_slice()) {
                Ok(bytes) => Ok(Seq::of(bytes)),
                Err(_) => Err(SpoolError::NoMemory),
            },
            Err(Failed) => Err(SpoolError::Failed),
        }
    }

    fn save(&mut self, bytes: &[u8]) -> Result<(), Failed>
        ensures fails { IsTrue (is_to_fail self.old.calls self.old.failing) → IsErr result }
        ensures counts { Counts self.old self.new }
        ensures saves { Saves (seen_memory self.old) (seen_memory self.new) bytes.now }
        ensures failed { self.new.failed ≡ is_err result }
    {
        match self.try_save(bytes) {
            Ok(()) => {
                self.failed = false;
                Ok(())
            }
            Err(Failed) => {
                self.failed = true;
                Err(Failed)
            }
        }
    }
}
