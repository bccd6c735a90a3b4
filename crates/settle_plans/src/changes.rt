//! The row of a log that is put behind other changes.
ghost use Rattle.std.specs.Prelude.{◌≡◌, [], ◌∷◌, ◌++◌, IfOk};
ghost use Rattle.job_records.specs.declared.change.Change.TheVariants.{PutLog};

use job_records::{Change, Log};
use job_values::NoMemory;
use log_opening::push_row;

/// The changes with the put of a row behind them.
pub fn put_behind(mut changes: Vec<Change>, row: Log) -> Result<Vec<Change>, NoMemory>
    ensures { IfOk result (λ all. all.items ≡ changes.items ++ PutLog row ∷ []) }
{
    push_row(&mut changes, Change::PutLog(row))?;
    Ok(changes)
}
