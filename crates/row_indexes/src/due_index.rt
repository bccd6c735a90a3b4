//! The running jobs by their next times.
ghost use Rattle.std.specs.Prelude.{◌≡◌, ◌+◌, ◌≤◌, [], slice_get, option_map, IfSome, OnOk};
ghost use Rattle.sorted_blocks.specs.Keys.{Rises};
ghost use Rattle.row_indexes.specs.Entries.{without_entry};
ghost use Rattle.row_indexes.specs.Due.{due_entry, due_moved, pair_of, IsDueKey};

use super::moves::{drop_entry, put_entry};
use job_values::{JobId, Moment, NoMemory, Steps};
use sorted_blocks::{Key, SortedBlocks};
use std::alloc::Global;
use std::marker::Model;
use std::sync::ledger::Ledger;

/// The next times and ids of jobs, in rising order: by the times, then by the ids.
#[derive(Drop)]
pub struct DueIndex {
    keys: SortedBlocks,
}

impl Model for DueIndex {
    ghost use Rattle.std.specs.Prelude.{All};
    ghost use Rattle.sorted_blocks.specs.Keys.{SortedKeys};
    ghost use Rattle.row_indexes.specs.Due.{IsDueKey};

    ghost Value = { SortedKeys };

    ghost view = { λ d. d.keys };

    ghost invariant = { λ d. All IsDueKey d.keys.keys };
}

/// The key of a job that has a next time.
fn due_key(job: JobId, next: Option<Moment>) -> Option<Key>
    ensures key { result ≡ due_entry job next }
    ensures bounds { IfSome result IsDueKey }
{
    match next {
        Some(next) => Some(Key {
            time: next.get(),
            id: job.get() as u64,
        }),
        None => None,
    }
}

impl DueIndex {
    /// The index without jobs. It takes no memory before `reserve`.
    pub fn new(alloc: Global) -> DueIndex
        ensures { result.keys ≡ [] }
    {
        DueIndex {
            keys: SortedBlocks::new(alloc),
        }
    }

    /// Makes room for `more` jobs. It changes no entry, whatever it answers.
    pub fn reserve(&mut self, more: usize) -> Result<(), NoMemory>
        ensures ok { OnOk result (more ≤ self.new.room) }
        ensures same { self.new.keys ≡ self.old.keys }
        ensures no_less { self.old.room ≤ self.new.room }
    {
        self.keys.reserve(more)
    }

    /// Moves a job from its old next time to its new one, where these differ; None is for a job that
    /// does not run. There is room for it. It takes no memory.
    pub fn change(&mut self, job: JobId, old: Option<Moment>, new: Option<Moment>)
        requires { 1 ≤ self.old.room }
        ensures keys { self.new.keys ≡ due_moved job old new self.old.keys }
        ensures room { self.old.room ≤ self.new.room + 1 }
    {
        if old == new {
            return;
        }
        drop_entry(&mut self.keys, due_key(job, old));
        put_entry(&mut self.keys, due_key(job, new));
    }

    /// Drops a job that had this next time. It takes no memory.
    pub fn drop_job(&mut self, job: JobId, old: Option<Moment>)
        ensures keys { self.new.keys ≡ without_entry (due_entry job old) self.old.keys }
        ensures room { self.old.room ≤ self.new.room }
    {
        drop_entry(&mut self.keys, due_key(job, old));
    }

    /// The entry at a place, counted from 0; None exactly past the end. It makes one step, and takes no
    /// memory. It passes the blocks before that place, of which each has up to 255 entries.
    pub fn entry_at<L: Ledger>(&self, place: usize, steps: &mut Steps<L>) -> Option<(Moment, JobId)>
        ensures entry { result ≡ option_map pair_of (slice_get self.now.keys place) }
        ensures rising { Rises self.now.keys }
        ensures steps { steps.new ≡ steps.old + 1 }
    {
        steps.tick();
        match self.keys.get(place) {
            Some(key) => Some(pair(key)),
            None => None,
        }
    }
}

/// The moment and the job of a key.
fn pair(key: Key) -> (Moment, JobId)
    requires { IsDueKey key }
    ensures { result ≡ pair_of key }
{
    (
        Moment::new(key.time).unwrap(),
        JobId::new(key.id as u32).unwrap(),
    )
}
