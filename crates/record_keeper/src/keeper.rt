//! What keeps the records over a stop: the port of a centre to its database.
ghost use Rattle.std.specs.Prelude.{◌≡◌, None, OnOk, OnErr, IfOk, IfSome};
ghost use Rattle.std.specs.Option.{option_map};
ghost use Rattle.job_records.specs.Changes.{AreAllowed, applied_all};
ghost use Rattle.record_keeper.specs.Keeping.{HasKeepCause, LoadsAs, version_answered};

use job_records::{Change, Records};
use job_values::{Seq, Text};

/// Why a call of a keeper did not come about.
#[derive(Clone, Copy, PartialEq, Eq)]
pub enum KeepError {
    /// The outside failed. The count of faults rose in this call.
    Failed,
    /// Memory ran out.
    NoMemory,
}

/// What a keeper holds.
#[derive(Drop)]
pub enum Loaded {
    /// Nothing was ever saved.
    Empty,
    /// The rows, and the last ids that were given.
    Tables(Records),
    /// Tables of a version that this keeper does not know.
    Version(u64),
}

/// Keeps the records: each save is all or nothing, and a load gives what was saved.
pub trait Keeper: Drop {
    ghost use Rattle.record_keeper.specs.Keeping.{KeeperView};

    // The tables, where they are told, the unknown version that the last load answered, and how often a call failed.
    ghost seen: { Self → KeeperView };

    /// Opens the tables of a file; those of none are kept in memory.
    fn attach(&mut self, file: Option<&Text>) -> Result<(), KeepError>
        ensures tables { (seen self.new).tables ≡ (seen self.old).tables }
        ensures version { (seen self.new).version ≡ None }
        ensures cause { HasKeepCause (seen self.old) (seen self.new) result };

    /// Saves these changes, in order. A failed save leaves the tables as they were.
    fn save(&mut self, changes: &Seq<Change>) -> Result<(), KeepError>
        requires allowed { IfSome (seen self.old).tables (λ t. AreAllowed t changes.now) }
        ensures saved { OnOk result ((seen self.new).tables ≡ option_map (λ t. applied_all t changes.now) (seen self.old).tables) }
        ensures left { OnErr result ((seen self.new).tables ≡ (seen self.old).tables) }
        ensures version { (seen self.new).version ≡ (seen self.old).version }
        ensures cause { HasKeepCause (seen self.old) (seen self.new) result };

    /// The rows that were saved.
    fn load(&mut self) -> Result<Loaded, KeepError>
        ensures told { IfOk result (LoadsAs (seen self.old).tables) }
        ensures tables { (seen self.new).tables ≡ (seen self.old).tables }
        ensures version { (seen self.new).version ≡ version_answered result }
        ensures cause { HasKeepCause (seen self.old) (seen self.new) result };

    /// How often a call failed.
    fn faults(&self) -> u64
        ensures { result ≡ (seen self.now).faults };
}
