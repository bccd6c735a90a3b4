//! Logs that admins took and did not send yet.
ghost use Rattle.std.specs.Prelude.{◌≡◌};

use job_values::{Addresses, AdminNo, LogId};
use rising_rows::Keyed;

/// A log that an admin took, and the addresses that it may be sent to.
#[derive(Drop)]
pub struct TakenLog {
    pub log: LogId,
    pub admin: AdminNo,
    pub addresses: Addresses,
}

/// Its key is the id of the log.
impl Keyed for TakenLog {
    ghost key_of = { λ taken. taken.log };

    fn key(&self) -> u64 {
        self.log.get()
    }
}
