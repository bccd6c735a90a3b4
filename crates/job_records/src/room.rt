//! The room that changes need.
ghost use Rattle.std.specs.Prelude.{◌≡◌, count_by, OnOk};
ghost use Rattle.job_records.specs.Room.{puts_group, puts_job, puts_log, puts_registration, HasRoom, HasNoLessRoom};

use super::change::Change;
use super::records::Records;
use job_values::{NoMemory, Seq};

/// How many rows changes put in each list.
#[derive(Drop)]
struct Puts {
    groups: usize,
    jobs: usize,
    logs: usize,
    registry: usize,
}

fn count_puts(changes: &[Change]) -> Puts
    ensures groups { result.groups ≡ count_by puts_group changes.now }
    ensures jobs { result.jobs ≡ count_by puts_job changes.now }
    ensures logs { result.logs ≡ count_by puts_log changes.now }
    ensures registry { result.registry ≡ count_by puts_registration changes.now }
{
    let mut groups = 0;
    let mut jobs = 0;
    let mut logs = 0;
    let mut registry = 0;
    for change in changes {
        match change {
            Change::PutGroup(_) => groups += 1,
            Change::PutJob(_) => jobs += 1,
            Change::PutLog(_) => logs += 1,
            Change::PutRegistry(_) => registry += 1,
            _ => {}
        }
    }
    Puts {
        groups,
        jobs,
        logs,
        registry,
    }
}

impl Records {
    /// Makes room for the rows that these changes put. It changes no row, whatever it answers.
    pub fn reserve(&mut self, changes: &Seq<Change>) -> Result<(), NoMemory>
        ensures room { OnOk result (HasRoom self.new.room changes.now) }
        ensures same { self.new.kept ≡ self.old.kept }
        ensures no_less { HasNoLessRoom self.old.room self.new.room }
    {
        let puts = count_puts(changes.as_slice());
        self.groups.reserve(puts.groups)?;
        self.jobs.reserve(puts.jobs)?;
        self.logs.reserve(puts.logs)?;
        self.registry.reserve(puts.registry)?;
        Ok(())
    }
}
