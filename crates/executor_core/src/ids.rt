//! A set of log ids, each found at once.
ghost use Rattle.std.specs.Prelude.{◌≡◌, ◌+◌, ◌<◌, ◌≤◌, ◌==◌, not, false, [], length, filter, OnOk};
ghost use Rattle.executor_history.specs.Past.{put_id, is_among};

use indexmap::IndexSet;
use job_values::{LogId, NoMemory};
use std::alloc::Global;
use std::marker::Model;

/// Log ids, each once. One is found, put or taken away in the same time, however many there are.
#[derive(Drop)]
pub struct Ids {
    ids: IndexSet<u64>,
}

impl Model for Ids {
    ghost use Rattle.std.specs.Prelude.{[], nat_eq};
    ghost use Rattle.indexmap.specs.IndexSet.{spare, IsUnique};
    ghost use Rattle.executor_core.specs.Ids.{IdsView, in_rise};

    ghost Value = { IdsView };

    ghost view = { λ s. record { ids = in_rise s.ids.keys []; room = spare s.ids } };

    ghost invariant = { λ s. IsUnique nat_eq s.ids };
}

impl Ids {
    /// No ids. It takes no memory.
    pub fn new(alloc: Global) -> Ids
        ensures { result.ids ≡ [] }
    {
        Ids {
            ids: IndexSet::new(alloc),
        }
    }

    /// How many ids there are.
    pub fn len(&self) -> usize
        ensures { result ≡ length self.now.ids }
    {
        self.ids.len()
    }

    /// Whether an id is among them.
    pub fn contains(&self, id: LogId) -> bool
        ensures { result ≡ is_among id self.now.ids }
    {
        self.ids.contains(&id.get())
    }

    /// Makes room for one more id.
    pub fn reserve(&mut self) -> Result<(), NoMemory>
        ensures ids { self.new.ids ≡ self.old.ids }
        ensures room { OnOk result (1 ≤ self.new.room) }
    {
        self.ids.reserve(1)?;
        Ok(())
    }

    /// Puts a new id to the others. It takes no memory.
    pub fn put(&mut self, id: LogId)
        requires room { 1 ≤ self.old.room }
        requires new { is_among id self.old.ids ≡ false }
        ensures { self.new.ids ≡ put_id id self.old.ids }
    {
        let _put = self.ids.insert(id.get());
    }

    /// Takes an id away, if it is there. It takes no memory.
    pub fn release(&mut self, id: LogId)
        ensures { self.new.ids ≡ filter (λ x. not (id == x)) self.old.ids }
    {
        let _was_there = self.ids.swap_remove(&id.get());
    }
}
