//! The picks of all jobs of an admin node, and the choice of addresses.
ghost use Rattle.std.specs.Prelude.{◌≡◌, ◌≢◌, ℕ, ◌-◌, ◌^◌, ◌<◌, [], ◌∷◌, ◌++◌, List, IfOk, OnOk, OnErr};
ghost use Rattle.route_strategies.specs.Choice.{IsChoice};
ghost use Rattle.route_strategies.specs.Chosen.{chosen};
ghost use Rattle.route_strategies.specs.State.{counts_of, ArePicksOf, HasRoom, with_pick};

use super::ask::RouteAsk;
use super::jobs::{add_for, reserve_for};
use super::picks::JobPicks;
use super::way::{Way, copied_list, give_place, way_of};
use indexmap::IndexMap;
use job_values::{Choice, JobId, NoMemory, Text};
use std::alloc::Global;
use std::marker::Model;

/// What is kept of the addresses that were picked for each job of one admin node.
#[derive(Drop)]
pub struct Routes {
    jobs: IndexMap<u32, JobPicks>,
    // The picks of a job that has none yet.
    fresh: JobPicks,
    alloc: Global,
}

impl Model for Routes {
    ghost use Rattle.std.specs.Prelude.{◌≡◌};
    ghost use Rattle.indexmap.specs.IndexMap.{spare};
    ghost use Rattle.route_strategies.specs.Picks.{no_picks};
    ghost use Rattle.route_strategies.specs.Rows.{kept_rows, room_rows};
    ghost use Rattle.route_strategies.specs.State.{RoutesState};

    ghost Value = { RoutesState };

    ghost view = { λ r. record {
      kept = kept_rows r.jobs.entries;
      room = record { addresses = room_rows r.jobs.entries; jobs = spare r.jobs; fresh = r.fresh.room };
    } };

    ghost invariant = { λ r. r.fresh.kept ≡ no_picks };
}

impl Routes {
    /// No picks of any job. The later calls take their memory from the same place.
    pub fn new(alloc: Global) -> Routes
        ensures empty { result.kept ≡ [] }
        ensures picks { (job : ℕ) → ArePicksOf result.kept job [] }
    {
        Routes {
            jobs: IndexMap::new(alloc),
            fresh: JobPicks::new(alloc),
            alloc,
        }
    }

    /// The address that the route gives, or the list that is to be asked. It changes nothing.
    pub fn choose(&self, ask: &RouteAsk<'_>) -> Result<Choice, NoMemory>
        ensures exact { (picks : List (List ℕ)) → ArePicksOf self.now.kept ask.now.job picks → IfOk result (λ choice. choice ≡ chosen ask.now.route ask.now.job ask.now.list.now ask.now.index ask.now.word picks) }
        ensures choice { (picks : List (List ℕ)) → ArePicksOf self.now.kept ask.now.job picks → IfOk result (IsChoice ask.now.route ask.now.job ask.now.list.now ask.now.index ask.now.word picks) }
    {
        let list = ask.list.as_slice();
        if list.is_empty() {
            return Ok(Choice::NoAddress);
        }
        match way_of(ask, list, self.picks_of(ask.job)) {
            Way::Place(place) => give_place(self.alloc, list, place),
            Way::Beat => Ok(Choice::Beat(copied_list(self.alloc, ask.list)?)),
            Way::Idle => Ok(Choice::Idle(copied_list(self.alloc, ask.list)?)),
        }
    }

    /// How many picks a job has.
    pub fn number_of_picks(&self, job: JobId) -> u64
        ensures { result ≡ (counts_of self.now.kept job).number }
    {
        self.picks_of(job).number()
    }

    fn picks_of(&self, job: JobId) -> &JobPicks
        ensures { result.now.kept ≡ counts_of self.now.kept job }
    {
        match self.jobs.get(&job.get()) {
            Some(picks) => picks,
            None => &self.fresh,
        }
    }

    /// Makes room for one pick of a job. It changes nothing else, whatever it answers. A job whose
    /// picks can't be counted on has no room for one more.
    pub fn reserve(&mut self, job: JobId) -> Result<(), NoMemory>
        ensures ok { OnOk result (HasRoom self.new.room job) }
        ensures fewer { OnOk result ((counts_of self.new.kept job).number < 2 ^ 64 - 1) }
        ensures same { self.new.kept ≡ self.old.kept }
    {
        if self.number_of_picks(job) == u64::MAX {
            return Err(NoMemory);
        }
        reserve_for(&mut self.jobs, &mut self.fresh, job.get())
    }

    /// Takes account of a pick of an address for a job, for which `reserve` made room.
    pub fn pick(&mut self, job: JobId, address: Text)
        requires room { HasRoom self.old.room job }
        requires fewer { (counts_of self.old.kept job).number < 2 ^ 64 - 1 }
        ensures kept { self.new.kept ≡ with_pick self.old.kept job address }
        ensures picked { (picks : List (List ℕ)) → ArePicksOf self.old.kept job picks → ArePicksOf self.new.kept job (picks ++ address ∷ []) }
        ensures others { (other : ℕ) → other ≢ job → counts_of self.new.kept other ≡ counts_of self.old.kept other }
    {
        add_for(
            &mut self.jobs,
            &mut self.fresh,
            self.alloc,
            job.get(),
            address,
        );
    }
}
