//! The records: the rows that the admins share, found by their ids and changed by lists of changes.
ghost use Rattle.std.specs.Prelude.{◌≡◌};
ghost use Rattle.std.specs.Option.{option_copied};
ghost use Rattle.rising_rows.specs.Rising.{row_with, RisesFrom};
ghost use Rattle.job_records.specs.Tables.{no_rows};
ghost use Rattle.job_records.specs.Rules.{KeepsRules};
ghost use Rattle.job_records.specs.DueJobs.{due_entries};
ghost use Rattle.job_records.specs.LogClasses.{is_unmarked, is_awaited, log_ids};

use super::group::Group;
use super::job::Job;
use super::job_rows::JobRows;
use super::last_ids::LastIds;
use super::log::Log;
use super::log_rows::LogRows;
use super::registry::RegistryRow;
use job_values::{GroupId, JobId, LogId};
use rising_rows::row_of;
use row_indexes::{DueIndex, LogIndex};
use std::alloc::Global;
use std::marker::Model;

/// The rows that the admins share, and the last ids that were given.
#[derive(Drop)]
pub struct Records {
    pub(crate) groups: Vec<Group>,
    pub(crate) jobs: JobRows,
    pub(crate) logs: LogRows,
    pub(crate) registry: Vec<RegistryRow>,
    pub(crate) last: LastIds,
}

impl Model for Records {
    ghost use Rattle.std.specs.Prelude.{◌-◌, vec_len, vec_capacity};
    ghost use Rattle.job_records.specs.Room.{RecordsState};
    ghost use Rattle.job_records.specs.Rules.{KeepsRules};

    ghost Value = { RecordsState };

    ghost view = { λ r. record {
      kept = record { groups = r.groups.items; jobs = r.jobs.rows; logs = r.logs.rows; registry = r.registry.items; last = r.last };
      room = record {
        groups = vec_capacity r.groups - vec_len r.groups;
        jobs = r.jobs.room;
        logs = r.logs.room;
        registry = vec_capacity r.registry - vec_len r.registry;
      };
    } };

    ghost invariant = { λ r. KeepsRules (record { groups = r.groups.items; jobs = r.jobs.rows; logs = r.logs.rows; registry = r.registry.items; last = r.last }) };
}

impl Records {
    /// The records without rows, in which no id was given.
    pub fn new(alloc: Global) -> Records
        ensures { result.kept ≡ no_rows }
    {
        Records {
            groups: Vec::new(alloc),
            jobs: JobRows::new(alloc),
            logs: LogRows::new(alloc),
            registry: Vec::new(alloc),
            last: LastIds {
                group: 0,
                job: 0,
                log: 0,
            },
        }
    }

    /// The group with this id; None exactly where there is none.
    pub fn group(&self, id: GroupId) -> Option<&Group>
        ensures { option_copied result ≡ row_with (λ group. group.id) id self.now.kept.groups }
    {
        row_of(self.groups.as_slice(), id.get() as u64)
    }

    /// The job with this id; None exactly where there is none.
    pub fn job(&self, id: JobId) -> Option<&Job>
        ensures { option_copied result ≡ row_with (λ job. job.id) id self.now.kept.jobs }
    {
        row_of(self.jobs.as_slice(), id.get() as u64)
    }

    /// The log with this id; None exactly where there is none.
    pub fn log(&self, id: LogId) -> Option<&Log>
        ensures { option_copied result ≡ row_with (λ log. log.id) id self.now.kept.logs }
    {
        row_of(self.logs.as_slice(), id.get())
    }

    /// The groups, in order of their ids.
    pub fn groups(&self) -> &[Group]
        ensures { result.now ≡ self.now.kept.groups }
    {
        self.groups.as_slice()
    }

    /// The jobs, in order of their ids.
    pub fn jobs(&self) -> &[Job]
        ensures { result.now ≡ self.now.kept.jobs }
    {
        self.jobs.as_slice()
    }

    /// The logs, in order of their ids.
    pub fn logs(&self) -> &[Log]
        ensures { result.now ≡ self.now.kept.logs }
    {
        self.logs.as_slice()
    }

    /// The registrations, in order of their keys and values.
    pub fn registry(&self) -> &[RegistryRow]
        ensures { result.now ≡ self.now.kept.registry }
    {
        self.registry.as_slice()
    }

    /// The running jobs by their next times.
    pub fn due(&self) -> &DueIndex
        ensures { result.now.keys ≡ due_entries self.now.kept.jobs }
    {
        self.jobs.due()
    }

    /// The failed logs that no monitor chose, and the awaited logs.
    pub fn log_index(&self) -> &LogIndex
        ensures rising { RisesFrom (λ log. log.id) 0 self.now.kept.logs }
        ensures failed { result.now.failed ≡ log_ids is_unmarked self.now.kept.logs }
        ensures awaited { result.now.awaited ≡ log_ids is_awaited self.now.kept.logs }
    {
        self.logs.index()
    }

    /// The last ids that were given.
    pub fn last_ids(&self) -> LastIds
        ensures value { result ≡ self.now.kept.last }
        ensures rules { KeepsRules self.now.kept }
    {
        self.last
    }
}
