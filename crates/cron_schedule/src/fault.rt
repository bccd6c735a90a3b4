//! Why a text is no schedule.

use job_values::{NoMemory, ScheduleFault};
use thiserror::Error;

/// Why a text gave no schedule.
#[derive(Clone, Copy, Debug, PartialEq, Eq, Error)]
pub enum ParseFault {
    /// The text is no schedule of its kind; this is its first fault.
    #[error("bad schedule")]
    Bad(ScheduleFault),
    #[error("no memory")]
    NoMemory,
}

impl From<NoMemory> for ParseFault {
    ghost use Rattle.std.specs.Prelude.{◌≡◌};
    ghost use Rattle.cron_schedule.specs.declared.fault.ParseFault.TheVariants.{NoMemory};

    ghost from_gives = { λ _ f. f ≡ NoMemory };

    fn from(_: NoMemory) -> ParseFault {
        ParseFault::NoMemory
    }
}
