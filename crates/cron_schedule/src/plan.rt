//! What a schedule says, as contracts see it.

use super::cron::Cron;

/// What a schedule says: when a job is due.
#[derive(Drop)]
pub enum Plan {
    /// Never.
    Never,
    /// So many seconds after the time before.
    Every(u32),
    /// At the moments whose civil time is in the seven sets of a cron text.
    Cron(Cron),
}
