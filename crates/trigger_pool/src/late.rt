//! How many sendings of each job were late in the minute of the last one.
ghost use Rattle.std.specs.Prelude.{◌≡◌, ◌+◌, ◌<◌, ◌≤◌, Some, OnOk};
ghost use Rattle.indexmap.specs.IndexMap.{spare};
ghost use Rattle.trigger_pool.specs.Reports.{no_counts, late_count, begun_late, raised_late, raised_if, counts_with};

use indexmap::IndexMap;
use job_values::limits::{LATE_ABOVE, MINUTE};
use job_values::{JobId, Moment, NoMemory};
use std::alloc::Global;
use std::marker::Model;

/// The late sendings of one minute, per job.
#[derive(Drop)]
pub(crate) struct LateCounts {
    minute: Option<u64>,
    counts: IndexMap<u32, u64>,
}

impl Model for LateCounts {
    ghost use Rattle.trigger_pool.specs.Late.{KeptCounts};
    ghost use Rattle.indexmap.specs.IndexMap.{spare};

    ghost Value = { KeptCounts };

    ghost view = { λ a. record { kept = record { minute = a.minute; late = a.counts.entries }; room = spare a.counts } };
}

impl LateCounts {
    pub(crate) fn new(alloc: Global) -> LateCounts
        ensures { result.kept ≡ no_counts }
    {
        LateCounts {
            minute: None,
            counts: IndexMap::new(alloc),
        }
    }

    pub(crate) fn reserve(&mut self) -> Result<(), NoMemory>
        ensures ok { OnOk result (1 ≤ self.new.room) }
        ensures same { self.new.kept ≡ self.old.kept }
        ensures room { self.old.room ≤ self.new.room }
    {
        self.counts.reserve(1)?;
        Ok(())
    }

    pub(crate) fn report(&mut self, job: JobId, start: Moment, end: Moment)
        requires { 0 < self.old.room }
        ensures kept { self.new.kept ≡ counts_with self.old.kept (record { job = job; start = start; end = end }) }
        ensures room { self.old.room ≤ self.new.room + 1 }
    {
        let late = end.get() > start.get() + LATE_ABOVE;
        begin_minute(&mut self.minute, &mut self.counts, end.get() / MINUTE);
        raise_if(late, &mut self.counts, job.get());
    }

    pub(crate) fn count(&self, job: JobId) -> u64
        ensures { result ≡ late_count self.now.kept job }
    {
        self.counts.get(&job.get()).copied().unwrap_or(0)
    }
}

// Makes this the kept minute; another minute has no count yet.
fn begin_minute(kept: &mut Option<u64>, counts: &mut IndexMap<u32, u64>, minute: u64)
    ensures minute { kept.new ≡ Some minute }
    ensures counts { counts.new.entries ≡ begun_late kept.old counts.old.entries minute }
    ensures room { spare counts.old ≤ spare counts.new }
{
    if *kept != Some(minute) {
        *kept = Some(minute);
        counts.clear();
    }
}

// Counts one more late sending of a job.
fn raise(counts: &mut IndexMap<u32, u64>, job: u32)
    requires { 0 < spare counts.old }
    ensures raised { counts.new.entries ≡ raised_late counts.old.entries job }
    ensures room { spare counts.old ≤ spare counts.new + 1 }
{
    let count = counts.get(&job).copied().unwrap_or(0);
    let _ = counts.insert(job, count.saturating_add(1));
}

fn raise_if(late: bool, counts: &mut IndexMap<u32, u64>, job: u32)
    requires { 0 < spare counts.old }
    ensures raised { counts.new.entries ≡ raised_if late counts.old.entries job }
    ensures room { spare counts.old ≤ spare counts.new + 1 }
{
    if late {
        raise(counts, job);
    }
}
