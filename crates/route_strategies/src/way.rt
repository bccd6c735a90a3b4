//! Where a route leads, before an address is copied.
ghost use Rattle.std.specs.Prelude.{◌≡◌, ◌<◌, ℕ, List, length, nat_lt, if◌then◌else◌, IfOk};
ghost use Rattle.route_strategies.specs.Choice.{GivesPlace};
ghost use Rattle.route_strategies.specs.Way.{IsWay, IsInside};
ghost use Rattle.route_strategies.specs.Picks.{IsPicks};
ghost use Rattle.route_strategies.specs.Chosen.{chosen, choice_at};

use super::ask::RouteAsk;
use super::hash::hash_place;
use super::least::{Weight, first_least};
use super::picks::JobPicks;
use job_values::{Address, Addresses, Choice, NoMemory, Route, Seq};
use std::alloc::Global;

/// One place of the list, or the whole list to be asked.
#[derive(Clone, Copy)]
pub(crate) enum Way {
    Place(usize),
    Beat,
    Idle,
}

pub(crate) fn way_of(ask: &RouteAsk<'_>, list: &[Address], picks: &JobPicks) -> Way
    requires { 0 < length list.now }
    ensures within { IsInside list.now result }
    ensures exact { (sofar : List (List ℕ)) → IsPicks picks.now.kept sofar → choice_at list.now result ≡ chosen ask.now.route ask.now.job list.now ask.now.index ask.now.word sofar }
    ensures way { (sofar : List (List ℕ)) → IsPicks picks.now.kept sofar → IsWay ask.now.route ask.now.job list.now ask.now.index ask.now.word sofar result }
{
    match ask.route {
        Route::First => Way::Place(0),
        Route::Last => Way::Place(list.len() - 1),
        Route::Round => Way::Place((picks.number() % list.len() as u64) as usize),
        Route::Random => Way::Place((ask.word % list.len() as u64) as usize),
        Route::ConsistentHash => Way::Place(hash_place(ask.job, list)),
        Route::LeastFrequentlyUsed => Way::Place(first_least(picks, Weight::Count, list)),
        Route::LeastRecentlyUsed => Way::Place(first_least(picks, Weight::LastPick, list)),
        Route::Failover => Way::Beat,
        Route::Busyover => Way::Idle,
        Route::ShardingBroadcast => Way::Place(shard_place(ask.index.get(), list)),
    }
}

fn shard_place(index: u32, list: &[Address]) -> usize
    ensures { result ≡ (if nat_lt index (length list.now) then index else 0) }
{
    let place = index as usize;
    if place < list.len() { place } else { 0 }
}

pub(crate) fn give_place(alloc: Global, list: &[Address], place: usize) -> Result<Choice, NoMemory>
    requires { place < length list.now }
    ensures { IfOk result (GivesPlace list.now place) }
{
    let address = &list[place];
    Ok(Choice::To(address.copy(alloc)?))
}

pub(crate) fn copied_list(alloc: Global, list: &Addresses) -> Result<Addresses, NoMemory>
    ensures { IfOk result (λ copied. copied ≡ list.now) }
{
    let addresses = list.as_slice();
    let mut copied = Vec::with_capacity(alloc, addresses.len())?;
    for address in addresses {
        copied.push(address.copy(alloc)?)?;
    }
    Ok(Addresses::of(Seq::of(copied)))
}
