//! A block: keys in rising order, in memory that it keeps.
ghost use Rattle.std.specs.Prelude.{◌≡◌, ◌<◌, [], length, take, drop, slice_get, IfOk};
ghost use Rattle.std.specs.List.{list_all};
ghost use Rattle.std.specs.Ordering.{is_lt};
ghost use Rattle.sorted_blocks.specs.Keys.{key_order, has_key, key_above, with_key, without_key, Rises};
ghost use Rattle.rising_rows.specs.Seats.{IsSeat};

use super::key::Key;
use job_values::NoMemory;
use rising_rows::{put_at, take_at};
use std::alloc::Global;
use std::marker::Model;

/// How many keys a block has place for: 4096 bytes of them.
pub const BLOCK: usize = 256;

/// Half of them.
pub const HALF: usize = 128;

/// Keys in rising order.
#[derive(Drop)]
pub(crate) struct KeyBlock {
    keys: Vec<Key>,
}

impl Model for KeyBlock {
    ghost use Rattle.std.specs.Prelude.{◌≤◌, List, vec_capacity};
    ghost use Rattle.sorted_blocks.specs.declared.key.Key.{Key};
    ghost use Rattle.sorted_blocks.specs.declared.key_block.TheConstants.{BLOCK};
    ghost use Rattle.sorted_blocks.specs.Keys.{Rises};

    ghost Value = { List Key };

    ghost view = { λ b. b.keys.items };

    ghost invariant = { λ b. Rises b.keys.items × (BLOCK ≤ vec_capacity b.keys) };
}

/// The seat of a key among others.
fn seat_of(keys: &[Key], key: Key) -> Result<usize, usize>
    requires { Rises keys.now }
    ensures { IsSeat (key_order key) keys.now result }
{
    keys.binary_search_by(|other| other.compare(&key))
}

impl KeyBlock {
    /// A block without keys.
    pub(crate) fn new(alloc: Global) -> Result<KeyBlock, NoMemory>
        ensures { IfOk result (λ block. block ≡ []) }
    {
        Ok(KeyBlock {
            keys: Vec::with_capacity(alloc, BLOCK)?,
        })
    }

    pub(crate) fn len(&self) -> usize
        ensures { result ≡ length self.now }
    {
        self.keys.len()
    }

    pub(crate) fn first(&self) -> Option<Key>
        ensures { result ≡ slice_get self.now 0 }
    {
        self.keys.as_slice().first().copied()
    }

    /// The key at a place, counted from 0.
    pub(crate) fn get(&self, place: usize) -> Option<Key>
        ensures { result ≡ slice_get self.now place }
    {
        self.keys.as_slice().get(place).copied()
    }

    /// Whether all keys are below this one: the last one is looked at.
    pub(crate) fn is_below(&self, key: Key) -> bool
        ensures { result ≡ list_all (λ other. is_lt (key_order key other)) self.now }
    {
        match self.keys.as_slice().last() {
            Some(last) => last.compare(&key).is_lt(),
            None => true,
        }
    }

    pub(crate) fn contains(&self, key: Key) -> bool
        ensures { result ≡ has_key key self.now }
    {
        seat_of(self.keys.as_slice(), key).is_ok()
    }

    /// The first key above this one.
    pub(crate) fn next_after(&self, key: Key) -> Option<Key>
        ensures { result ≡ key_above key self.now }
    {
        match seat_of(self.keys.as_slice(), key) {
            Ok(at) => self.keys.as_slice().get(at + 1).copied(),
            Err(at) => self.keys.as_slice().get(at).copied(),
        }
    }

    /// Puts a key, for which there is place.
    pub(crate) fn put(&mut self, key: Key)
        requires { length self.old < BLOCK }
        ensures { self.new ≡ with_key key self.old }
    {
        let seat = seat_of(self.keys.as_slice(), key);
        put_at(&mut self.keys, key, seat);
    }

    /// Drops a key, if it is there.
    pub(crate) fn drop_key(&mut self, key: Key)
        ensures { self.new ≡ without_key key self.old }
    {
        let seat = seat_of(self.keys.as_slice(), key);
        take_at(&mut self.keys, seat);
    }

    /// Moves the second half of as many keys as there is place for to a block without keys.
    pub(crate) fn move_half(&mut self, back: &mut KeyBlock)
        requires full { length self.old ≡ BLOCK }
        requires empty { back.old ≡ [] }
        ensures front { self.new ≡ take HALF self.old }
        ensures back { back.new ≡ drop HALF self.old }
    {
        back.keys.extend_from_slice(&self.keys[HALF..]).unwrap();
        self.keys.truncate(HALF);
    }
}
