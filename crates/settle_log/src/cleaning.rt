//! Old logs, which are dropped.
ghost use Rattle.std.specs.Prelude.{◌≡◌, IfOk};
ghost use Rattle.job_records.specs.Rules.{KeepsRules};
ghost use Rattle.settle_log.specs.Settling.{is_old};
ghost use Rattle.settle_log.specs.Results.{Cleans};

use job_records::{Change, Log, Records};
use job_values::{Moment, NoMemory, Seq};
use std::alloc::Global;

/// Whether a log is from before a moment and has a trigger code.
pub fn old(log: &Log, at: Moment) -> bool
    ensures { result ≡ is_old at log.now }
{
    log.time.get() < at.get() && log.trigger_code != 0
}

/// The drops of the logs that are old at a moment, in order of their ids: one pass over the logs.
pub fn clean(alloc: Global, records: &Records, at: Moment) -> Result<Seq<Change>, NoMemory>
    requires { KeepsRules records.now.kept }
    ensures { IfOk result (Cleans at records.now.kept) }
{
    let mut changes = Vec::new(alloc);
    for log in records.logs() {
        if old(log, at) {
            changes.push(Change::DropLog(log.id)).map_err(|_| NoMemory)?;
        }
    }
    Ok(Seq::of(changes))
}
