//! Batches of drops: rows with rising ids are dropped in one pass over their list.
ghost use Rattle.std.specs.Prelude.{◌≡◌, ◌≤◌, length, take};
ghost use Rattle.job_records.specs.DropBatches.{dropped_id, is_drop_of, AreDrops};

use super::change::Change;
use super::drops::Dropped;
use rising_rows::Keyed;

/// A change that drops a row by its id has that id for its key.
impl Keyed for Change {
    ghost key_of = { dropped_id };

    fn key(&self) -> u64 {
        match self {
            Change::DropJob(id) => id.get() as u64,
            Change::DropLog(id) => id.get(),
            _ => 0,
        }
    }
}

/// Whether a change drops a row of this list.
fn is_drop(kind: Dropped, change: &Change) -> bool
    ensures { result ≡ is_drop_of kind change.now }
{
    match (kind, change) {
        (Dropped::Job, Change::DropJob(_)) => true,
        (Dropped::Log, Change::DropLog(_)) => true,
        _ => false,
    }
}

/// How many changes at the front drop rows of this list, with rising ids.
pub(crate) fn first_drops(kind: Dropped, changes: &[Change]) -> usize
    ensures within { result ≤ length changes.now }
    ensures drops { AreDrops kind (take result changes.now) }
{
    let mut last = 0;
    for (place, change) in changes.iter().enumerate() {
        let id = change.key();
        if !is_drop(kind, change) || id <= last {
            return place;
        }
        last = id;
    }
    changes.len()
}
