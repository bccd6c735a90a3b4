//! The fast and the slow pool.
ghost use Rattle.std.specs.Prelude.{◌≡◌, ℕ, ◌+◌, ◌<◌, ◌≤◌, ◌↔◌, List, [], ◌∷◌, ◌++◌, length, slice_get, IsTrue, OnOk, OnErr};
ghost use Rattle.trigger_pool.specs.Pool.{no_logs, queue_of, answer_at, with_log, without_first, with_sending};
ghost use Rattle.trigger_pool.specs.Reports.{Sending, IsTally, late_count, slow_count};

use super::late::LateCounts;
use job_values::limits::{FAST_LIMIT, SLOW_ABOVE, SLOW_LIMIT};
use job_values::{JobId, LogId, Moment, NoMemory, PoolAnswer, PoolKind};
use std::alloc::Global;
use std::collections::VecDeque;
use std::marker::Model;

/// The logs of one admin node that wait to be sent, and what it keeps of its sendings.
#[derive(Drop)]
pub struct Pools {
    fast: VecDeque<LogId>,
    slow: VecDeque<LogId>,
    late: LateCounts,
}

impl Model for Pools {
    ghost use Rattle.std.specs.Prelude.{◌-◌, min};
    ghost use Rattle.std.specs.VecDeque.{deque_len, deque_capacity};
    ghost use Rattle.trigger_pool.specs.Pool.{PoolState};

    ghost Value = { PoolState };

    ghost view = { λ p. record {
      kept = record { fast = p.fast.items; slow = p.slow.items; counts = p.late.kept };
      room = record {
        logs = min (deque_capacity p.fast - deque_len p.fast) (deque_capacity p.slow - deque_len p.slow);
        jobs = p.late.room;
      };
    } };
}

impl Pools {
    /// The pools without logs, of an admin that sent nothing. `reserve` takes its memory from the
    /// same place.
    pub fn new(alloc: Global) -> Pools
        ensures empty { result.kept ≡ no_logs }
        ensures tally { IsTally result.kept.counts [] }
    {
        Pools {
            fast: VecDeque::new(alloc),
            slow: VecDeque::new(alloc),
            late: LateCounts::new(alloc),
        }
    }

    /// Makes room for `count` more logs in each pool, and for the slow count of one more job. It
    /// changes nothing else, whatever it answers.
    pub fn reserve(&mut self, count: usize) -> Result<(), NoMemory>
        ensures logs { OnOk result (count ≤ self.new.room.logs) }
        ensures jobs { OnOk result (1 ≤ self.new.room.jobs) }
        ensures same { self.new.kept ≡ self.old.kept }
        ensures kept_logs { self.old.room.logs ≤ self.new.room.logs }
        ensures kept_jobs { self.old.room.jobs ≤ self.new.room.jobs }
    {
        self.fast.reserve(count)?;
        self.slow.reserve(count)?;
        self.late.reserve()
    }

    /// Puts a log behind those of the slow pool where its job is slow, and else of the fast pool. At
    /// the limit of that pool it puts it nowhere.
    pub fn add(&mut self, log: LogId, job: JobId) -> PoolAnswer
        requires { 0 < self.old.room.logs }
        ensures answer { result ≡ answer_at (late_count self.old.kept.counts job) self.old.kept.fast self.old.kept.slow }
        ensures by_sendings { (sendings : List Sending) → IsTally self.old.kept.counts sendings → result ≡ answer_at (slow_count sendings job) self.old.kept.fast self.old.kept.slow }
        ensures queues { self.new.kept ≡ with_log self.old.kept log result }
        ensures logs { self.old.room.logs ≤ self.new.room.logs + 1 }
        ensures jobs { self.new.room.jobs ≡ self.old.room.jobs }
    {
        if self.late.count(job) > SLOW_ABOVE {
            if self.slow.len() < SLOW_LIMIT {
                self.slow.push_back_reserved(log);
                return PoolAnswer::Slow;
            }
        } else if self.fast.len() < FAST_LIMIT {
            self.fast.push_back_reserved(log);
            return PoolAnswer::Fast;
        }
        PoolAnswer::Full
    }

    /// Takes account of a sending for a job that began at `start` and ended at `end`.
    pub fn report(&mut self, job: JobId, start: Moment, end: Moment)
        requires { 0 < self.old.room.jobs }
        ensures kept { self.new.kept ≡ with_sending self.old.kept (record { job = job; start = start; end = end }) }
        ensures logs { self.new.room.logs ≡ self.old.room.logs }
        ensures jobs { self.old.room.jobs ≤ self.new.room.jobs + 1 }
    {
        self.late.report(job, start, end);
    }

    /// Takes the first log of a pool; None exactly where it has none.
    pub fn take(&mut self, pool: PoolKind) -> Option<LogId>
        ensures first { result ≡ slice_get (queue_of self.old.kept pool) 0 }
        ensures queues { self.new.kept ≡ without_first self.old.kept pool }
        ensures logs { self.old.room.logs ≤ self.new.room.logs }
        ensures jobs { self.new.room.jobs ≡ self.old.room.jobs }
    {
        match pool {
            PoolKind::Fast => self.fast.pop_front(),
            PoolKind::Slow => self.slow.pop_front(),
        }
    }

    /// What `take` would give.
    pub fn front(&self, pool: PoolKind) -> Option<LogId>
        ensures { result ≡ slice_get (queue_of self.now.kept pool) 0 }
    {
        self.waiting(pool).front().copied()
    }

    /// How many logs wait in a pool.
    pub fn length(&self, pool: PoolKind) -> usize
        ensures { result ≡ length (queue_of self.now.kept pool) }
    {
        self.waiting(pool).len()
    }

    /// Whether the slow count of a job is above `SLOW_ABOVE`.
    pub fn is_slow(&self, job: JobId) -> bool
        ensures count { IsTrue result ↔ (SLOW_ABOVE < late_count self.now.kept.counts job) }
        ensures by_sendings { (sendings : List Sending) → IsTally self.now.kept.counts sendings → IsTrue result ↔ (SLOW_ABOVE < slow_count sendings job) }
    {
        self.late.count(job) > SLOW_ABOVE
    }

    /// The logs that wait in a pool, the next one first.
    pub fn waiting(&self, pool: PoolKind) -> &VecDeque<LogId>
        ensures { result.now.items ≡ queue_of self.now.kept pool }
    {
        match pool {
            PoolKind::Fast => &self.fast,
            PoolKind::Slow => &self.slow,
        }
    }
}
