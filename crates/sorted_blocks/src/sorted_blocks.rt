//! The set: blocks of keys in rising order, and spare blocks.
ghost use Rattle.std.specs.Prelude.{◌≡◌, ◌+◌, ◌<◌, ◌≤◌, ◌==◌, [], length, slice_get, OnOk};
ghost use Rattle.sorted_blocks.specs.Keys.{has_key, key_above, with_key, without_key, Rises};

use super::blocks::{contains_key, drop_key, fill_spare, first_key, key_at, next_key, put_key};
use super::key::Key;
use super::key_block::{HALF, KeyBlock};
use job_values::NoMemory;
use std::alloc::Global;
use std::marker::Model;

/// A set of keys in rising order. A put or a drop costs two binary searches and moves at most the keys
/// of one block, which are 4096 bytes; the list of the blocks moves where a block is split or has no
/// key any more, 24 bytes for each. A block is split when it is full, so that both halves then have
/// 128 keys; blocks with few keys are not merged.
#[derive(Drop)]
pub struct SortedBlocks {
    blocks: Vec<KeyBlock>,
    spare: Vec<KeyBlock>,
    alloc: Global,
}

impl Model for SortedBlocks {
    ghost use Rattle.std.specs.Prelude.{length, vec_capacity};
    ghost use Rattle.sorted_blocks.specs.Keys.{SortedKeys};
    ghost use Rattle.sorted_blocks.specs.Blocks.{joined, room_of, AreBlocks};

    ghost Value = { SortedKeys };

    ghost view = { λ s. record { keys = joined s.blocks.items; room = room_of s.blocks.items (length s.spare.items) } };

    ghost invariant = { λ s. AreBlocks s.blocks.items s.spare.items (vec_capacity s.blocks) (vec_capacity s.spare) };
}

impl SortedBlocks {
    /// The set without keys. It takes no memory before `reserve`.
    pub fn new(alloc: Global) -> SortedBlocks
        ensures { result.keys ≡ [] }
    {
        SortedBlocks {
            blocks: Vec::new(alloc),
            spare: Vec::new(alloc),
            alloc,
        }
    }

    /// Whether there is no key.
    pub fn is_empty(&self) -> bool
        ensures { result ≡ (length self.now.keys == 0) }
    {
        self.blocks.is_empty()
    }

    /// Whether a key is there.
    pub fn contains(&self, key: Key) -> bool
        ensures { result ≡ has_key key self.now.keys }
    {
        contains_key(self.blocks.as_slice(), key)
    }

    /// The first key; None exactly where there is none.
    pub fn first(&self) -> Option<Key>
        ensures first { result ≡ slice_get self.now.keys 0 }
        ensures rising { Rises self.now.keys }
    {
        first_key(self.blocks.as_slice())
    }

    /// The key at a place, counted from 0; None exactly past the end. It passes the blocks before that
    /// place, of which each has up to 255 keys, one after another.
    pub fn get(&self, place: usize) -> Option<Key>
        ensures key { result ≡ slice_get self.now.keys place }
        ensures rising { Rises self.now.keys }
    {
        key_at(self.blocks.as_slice(), place)
    }

    /// The first key above this one, which need not be there; None exactly where there is none. With
    /// `first` it reads the keys one after another, each by two binary searches.
    pub fn next_after(&self, key: Key) -> Option<Key>
        ensures { result ≡ key_above key self.now.keys }
    {
        next_key(self.blocks.as_slice(), key)
    }

    /// Makes room for `more` keys to be put. It changes no key, whatever it answers. It keeps as many
    /// spare blocks of 4096 bytes as keys are asked for, but no more than there are blocks and one
    /// for each 128 keys; what is spare already counts.
    pub fn reserve(&mut self, more: usize) -> Result<(), NoMemory>
        ensures ok { OnOk result (more ≤ self.new.room) }
        ensures same { self.new.keys ≡ self.old.keys }
        ensures no_less { self.old.room ≤ self.new.room }
    {
        let most = self.blocks.len().saturating_add(more / HALF + 1);
        fill_spare(
            &mut self.blocks,
            &mut self.spare,
            more.min(most),
            self.alloc,
        )
    }

    /// Puts a key, for which `reserve` made room. A key that is there already stays. It takes no
    /// memory.
    pub fn put(&mut self, key: Key)
        requires { 1 ≤ self.old.room }
        ensures keys { self.new.keys ≡ with_key key self.old.keys }
        ensures room { self.old.room ≤ self.new.room + 1 }
    {
        put_key(&mut self.blocks, &mut self.spare, key);
    }

    /// Drops a key, if it is there. It takes no memory.
    pub fn drop_key(&mut self, key: Key)
        ensures keys { self.new.keys ≡ without_key key self.old.keys }
        ensures room { self.old.room ≤ self.new.room }
    {
        drop_key(&mut self.blocks, &mut self.spare, key);
    }
}
