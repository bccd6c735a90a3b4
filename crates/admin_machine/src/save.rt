//! How what an event changes of the rows is saved.
ghost use Rattle.std.specs.Prelude.{◌≡◌, [], OnOk, OnErr, IfSome};
ghost use Rattle.std.specs.Option.{option_map};
ghost use Rattle.job_records.specs.Changes.{AreAllowed, applied_all};
ghost use Rattle.admin_machine.specs.Refusals.{IsCounted};

use job_records::Change;
use job_values::Seq;
use record_keeper::{KeepError, Keeper};

/// Why an event was not acted. It changed nothing.
#[derive(Clone, Copy, Debug, PartialEq, Eq)]
pub enum AdminRefusal {
    /// Memory ran out.
    Memory,
    /// The keeper failed: its counts of faults before and after the save. The second is the greater,
    /// unless both are 2^64 - 1.
    KeeperFault { before: u64, after: u64 },
}

/// Saves changes, in order. It asks the keeper nothing where there are none.
pub(crate) fn save_changes<K: Keeper>(
    keeper: &mut K,
    changes: &Seq<Change>,
) -> Result<(), AdminRefusal>
    requires { IfSome (K.seen keeper.old).tables (λ t. AreAllowed t changes.now) }
    ensures saved { OnOk result ((K.seen keeper.new).tables ≡ option_map (λ t. applied_all t changes.now) (K.seen keeper.old).tables) }
    ensures left { OnErr result ((K.seen keeper.new).tables ≡ (K.seen keeper.old).tables) }
    ensures version { (K.seen keeper.new).version ≡ (K.seen keeper.old).version }
    ensures counted { IsCounted (K.seen keeper.old).faults (K.seen keeper.new).faults result }
    ensures none { changes.now ≡ [] → keeper.new ≡ keeper.old }
{
    if changes.is_empty() {
        return Ok(());
    }
    let before = keeper.faults();
    match keeper.save(changes) {
        Ok(()) => Ok(()),
        Err(KeepError::NoMemory) => Err(AdminRefusal::Memory),
        Err(KeepError::Failed) => {
            let after = keeper.faults();
            Err(AdminRefusal::KeeperFault { before, after })
        }
    }
}
