//! The row of a registration.

ghost use Rattle.std.specs.Prelude.{◌≡◌, IfOk};

use job_values::{Moment, NoMemory, RegistryText};
use std::alloc::Global;

/// An executor that said it is there, and when it said so last.
#[derive(Drop)]
pub struct RegistryRow {
    /// The name of the application.
    pub key: RegistryText,
    /// The executor's address.
    pub value: RegistryText,
    pub beat: Moment,
}

impl RegistryRow {
    /// Another row that says the same.
    pub fn copy(&self, alloc: Global) -> Result<RegistryRow, NoMemory>
        ensures { IfOk result (λ row. row ≡ self.now) }
    {
        let key = self.key.copy(alloc)?;
        let value = self.value.copy(alloc)?;
        Ok(RegistryRow {
            key,
            value,
            beat: self.beat,
        })
    }
}
