//! What is kept of the picks of one job.
ghost use Rattle.std.specs.Prelude.{◌≡◌, ℕ, ◌+◌, ◌-◌, ◌^◌, ◌<◌, ◌≤◌, [], ◌∷◌, ◌++◌, List, min, if◌then◌else◌, OnOk, OnErr, Some};
ghost use Rattle.std.specs.Str.{bytes_eq};
ghost use Rattle.std.specs.String.{string_bytes};
ghost use Rattle.std.specs.Option.{option_map_or};
ghost use Rattle.indexmap.specs.IndexMap.{spare, get_by_text};
ghost use Rattle.std.specs.Prelude.{string_eq};
ghost use Rattle.indexmap.specs.IndexMap.{insert_entry};
ghost use Rattle.route_strategies.specs.Picks.{no_picks, picked_in, count_in, last_in, IsPicks, pick_added};

use indexmap::IndexMap;
use job_values::{NoMemory, Text};
use std::alloc::Global;
use std::marker::Model;

/// How often an address was picked for a job, and the number of its last pick among those of the job.
#[derive(Clone, Copy)]
pub(crate) struct Picked {
    pub(crate) count: u64,
    pub(crate) last: u64,
}

/// The picks of one job.
#[derive(Drop)]
pub(crate) struct JobPicks {
    number: u64,
    addresses: IndexMap<String, Picked>,
}

impl Model for JobPicks {
    ghost use Rattle.route_strategies.specs.Entries.{by_bytes};
    ghost use Rattle.route_strategies.specs.Picks.{JobState};
    ghost use Rattle.indexmap.specs.IndexMap.{spare};

    ghost Value = { JobState };

    ghost view = { λ p. record { kept = record { number = p.number; addresses = by_bytes p.addresses.entries }; room = spare p.addresses } };
}

impl JobPicks {
    pub(crate) fn new(alloc: Global) -> JobPicks
        ensures { result.kept ≡ no_picks }
    {
        JobPicks {
            number: 0,
            addresses: IndexMap::new(alloc),
        }
    }

    pub(crate) fn reserve(&mut self) -> Result<(), NoMemory>
        ensures ok { OnOk result (0 < self.new.room) }
        ensures same { self.new.kept ≡ self.old.kept }
        ensures room { self.old.room ≤ self.new.room }
    {
        self.addresses.reserve(1)?;
        Ok(())
    }

    pub(crate) fn number(&self) -> u64
        ensures { result ≡ self.now.kept.number }
    {
        self.number
    }

    pub(crate) fn count(&self, address: &str) -> u64
        ensures { result ≡ count_in self.now.kept address.now }
    {
        count_of(find(&self.addresses, address))
    }

    pub(crate) fn last(&self, address: &str) -> u64
        ensures { result ≡ last_in self.now.kept address.now }
    {
        last_of(find(&self.addresses, address))
    }

    pub(crate) fn add(&mut self, address: Text)
        requires room { 0 < self.old.room }
        requires fewer { self.old.kept.number < 2 ^ 64 - 1 }
        ensures exact { self.new.kept ≡ pick_added self.old.kept address }
        ensures picks { (picks : List (List ℕ)) → IsPicks self.old.kept picks → IsPicks self.new.kept (picks ++ address ∷ []) }
    {
        self.number += 1;
        raise(&mut self.addresses, address.into_string(), self.number);
    }
}

fn find(addresses: &IndexMap<String, Picked>, address: &str) -> Option<Picked>
    ensures { result ≡ get_by_text addresses.now address.now }
{
    addresses.get(address).copied()
}

fn count_of(picked: Option<Picked>) -> u64
    ensures { result ≡ option_map_or (λ p. p.count) picked 0 }
{
    match picked {
        Some(picked) => picked.count,
        None => 0,
    }
}

fn last_of(picked: Option<Picked>) -> u64
    ensures { result ≡ option_map_or (λ p. p.last) picked 0 }
{
    match picked {
        Some(picked) => picked.last,
        None => 0,
    }
}

// Counts a pick of an address, which is the pick of this number.
fn raise(addresses: &mut IndexMap<String, Picked>, address: String, number: u64)
    requires { 0 < spare addresses.old }
    ensures entries { addresses.new.entries ≡ insert_entry string_eq addresses.old.entries address (record { count = min (option_map_or (λ p. p.count) (get_by_text addresses.old (string_bytes address)) 0 + 1) (2 ^ 64 - 1); last = number }) }
    ensures written { (other : List ℕ) → get_by_text addresses.new other ≡ (if bytes_eq (string_bytes address) other then Some (record { count = min (option_map_or (λ p. p.count) (get_by_text addresses.old (string_bytes address)) 0 + 1) (2 ^ 64 - 1); last = number }) else get_by_text addresses.old other) }
{
    let count = count_of(find(addresses, address.as_str()));
    let picked = Picked {
        count: count.saturating_add(1),
        last: number,
    };
    put(addresses, address, picked);
}

fn put(addresses: &mut IndexMap<String, Picked>, address: String, picked: Picked)
    requires { 0 < spare addresses.old }
    ensures entries { addresses.new.entries ≡ insert_entry string_eq addresses.old.entries address picked }
    ensures written { (other : List ℕ) → get_by_text addresses.new other ≡ (if bytes_eq (string_bytes address) other then Some picked else get_by_text addresses.old other) }
{
    let _ = addresses.insert(address, picked);
}
