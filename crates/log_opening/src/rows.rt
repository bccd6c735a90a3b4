//! Rows behind others.
ghost use Rattle.std.specs.Prelude.{◌≡◌, [], ◌∷◌, ◌++◌, OnOk, OnErr};

use job_values::NoMemory;

/// Puts a row behind the others. An `Err` changes nothing.
pub fn push_row<T: Drop>(rows: &mut Vec<T>, row: T) -> Result<(), NoMemory>
    ensures ok { OnOk result (rows.new.items ≡ rows.old.items ++ row ∷ []) }
    ensures err { OnErr result (rows.new.items ≡ rows.old.items) }
{
    rows.push(row).map_err(|_| NoMemory)
}
