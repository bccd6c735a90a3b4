//! The row of a group.

ghost use Rattle.std.specs.Prelude.{◌≡◌, IfOk};

use job_values::{Addresses, AppName, GroupId, GroupKind, NoMemory, copy_addresses};
use rising_rows::Keyed;
use std::alloc::Global;

/// The executors that run the jobs of a group.
#[derive(Drop)]
pub struct Group {
    pub id: GroupId,
    pub app: AppName,
    pub kind: GroupKind,
    pub addresses: Addresses,
}

impl Keyed for Group {
    ghost key_of = { λ group. group.id };

    fn key(&self) -> u64 {
        self.id.get() as u64
    }
}

impl Group {
    /// Another row that says the same.
    pub fn copy(&self, alloc: Global) -> Result<Group, NoMemory>
        ensures { IfOk result (λ row. row ≡ self.now) }
    {
        let app = self.app.copy(alloc)?;
        let addresses = copy_addresses(alloc, &self.addresses)?;
        Ok(Group {
            id: self.id,
            app,
            kind: self.kind,
            addresses,
        })
    }
}
