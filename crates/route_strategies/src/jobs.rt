//! Work on the picks of all jobs, by job number. `fresh` are the picks of a job that has none.
ghost use Rattle.std.specs.Prelude.{◌≡◌, ◌≢◌, ℕ, ◌-◌, ◌^◌, ◌<◌, ◌∷◌, ◌++◌, [], List, Some, nat_eq, unwrap_or, IsSomeAnd, MatchOption, if◌then◌else◌, OnOk};
ghost use Rattle.indexmap.specs.IndexMap.{get, spare};
ghost use Rattle.indexmap.specs.IndexMap.{insert_entry};
ghost use Rattle.route_strategies.specs.State.{with_pick};
ghost use Rattle.route_strategies.specs.Picks.{no_picks, IsPicks};
ghost use Rattle.route_strategies.specs.Rows.{kept_rows};

use super::picks::JobPicks;
use indexmap::IndexMap;
use job_values::{NoMemory, Text};
use std::alloc::Global;

pub(crate) fn reserve_for(
    jobs: &mut IndexMap<u32, JobPicks>,
    fresh: &mut JobPicks,
    job: u32,
) -> Result<(), NoMemory>
    ensures ok { OnOk result (MatchOption (get nat_eq jobs.new job) ((0 < spare jobs.new) × (0 < fresh.new.room)) (λ picks. 0 < picks.room)) }
    ensures same { kept_rows jobs.new.entries ≡ kept_rows jobs.old.entries }
    ensures fresh { fresh.new.kept ≡ fresh.old.kept }
{
    match jobs.get_mut(&job) {
        Some(picks) => picks.reserve(),
        None => {
            jobs.reserve(1)?;
            fresh.reserve()
        }
    }
}

pub(crate) fn add_for(
    jobs: &mut IndexMap<u32, JobPicks>,
    fresh: &mut JobPicks,
    alloc: Global,
    job: u32,
    address: Text,
)
    requires room { MatchOption (get nat_eq jobs.old job) ((0 < spare jobs.old) × (0 < fresh.old.room)) (λ picks. 0 < picks.room) }
    requires fewer { (unwrap_or (get nat_eq jobs.old job) fresh.old).kept.number < 2 ^ 64 - 1 }
    ensures exact { fresh.old.kept ≡ no_picks → kept_rows jobs.new.entries ≡ with_pick (kept_rows jobs.old.entries) job address }
    ensures picked { IsSomeAnd (get nat_eq jobs.new job) (λ state. (picks : List (List ℕ)) → IsPicks (unwrap_or (get nat_eq jobs.old job) fresh.old).kept picks → IsPicks state.kept (picks ++ address ∷ [])) }
    ensures others { (other : ℕ) → other ≢ job → get nat_eq jobs.new other ≡ get nat_eq jobs.old other }
    ensures fresh { fresh.old.kept ≡ no_picks → fresh.new.kept ≡ no_picks }
{
    match jobs.get_mut(&job) {
        Some(picks) => picks.add(address),
        None => {
            let mut picks = std::mem::replace(fresh, JobPicks::new(alloc));
            picks.add(address);
            put_new(jobs, job, picks);
        }
    }
}

fn put_new(jobs: &mut IndexMap<u32, JobPicks>, job: u32, picks: JobPicks)
    requires { 0 < spare jobs.old }
    ensures entries { jobs.new.entries ≡ insert_entry nat_eq jobs.old.entries job picks }
    ensures others { (other : ℕ) → get nat_eq jobs.new other ≡ (if nat_eq job other then Some picks else get nat_eq jobs.old other) }
{
    let _ = jobs.insert(job, picks);
}
