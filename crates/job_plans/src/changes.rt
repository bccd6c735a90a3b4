//! Short lists of changes of the rows.
ghost use Rattle.std.specs.Prelude.{◌≡◌, [], ◌∷◌, IfOk};

use job_records::Change;
use job_values::{NoMemory, Seq};
use std::alloc::Global;

/// A list of one change.
pub fn one_change(alloc: Global, change: Change) -> Result<Seq<Change>, NoMemory>
    ensures { IfOk result (λ changes. changes ≡ change ∷ []) }
{
    let changes = vec![in alloc; change].map_err(|_| NoMemory)?;
    Ok(Seq::of(changes))
}

/// A list of two changes, in this order.
pub fn two_changes(alloc: Global, first: Change, second: Change) -> Result<Seq<Change>, NoMemory>
    ensures { IfOk result (λ changes. changes ≡ first ∷ second ∷ []) }
{
    let changes = vec![in alloc; first, second].map_err(|_| NoMemory)?;
    Ok(Seq::of(changes))
}
