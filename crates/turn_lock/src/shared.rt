//! The lock: a table of three words, and one slot for the machine.
ghost use Rattle.std.specs.Prelude.{◌≡◌};

use crate::machine::Machine;
use crate::steps::{Turns, ViewOf};
use crate::view::Held;
use atomic_table::Table;
use std::alloc::Global;
use std::marker::Model;
use std::snapshot::Snapshot;
use std::sync::atomic::AtomicU64;

/// A machine that threads share. Contracts see which lock it is.
#[derive(Drop)]
pub struct Shared<M: Machine> {
    pub(crate) table: Table<Option<Held<M>>, ViewOf<M>, Snapshot<M>, Turns<M>, Global>,
    /// How many seats sleep, or are about to.
    pub(crate) sleepers: AtomicU64,
}

impl<M: Machine> Model for Shared<M> {
    ghost use Rattle.std.specs.Prelude.{◌≡◌};
    ghost use Rattle.atomic_table.specs.Seated.{TableId, table_id_coded};

    ghost Value = { TableId };

    ghost coded = { table_id_coded };

    ghost view = { λ s. s.table.shared.table_id };

    ghost invariant = { λ s. (s.table.shared.table_id.words ≡ 3) × (s.table.shared.table_id.slots ≡ 1) };
}
