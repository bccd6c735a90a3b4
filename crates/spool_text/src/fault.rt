//! Why a text is no spool text.
ghost use Rattle.std.specs.Prelude.{◌≡◌};
ghost use Rattle.spool_text.specs.declared.fault.SpoolFault.TheVariants as faults;

use job_values::NoMemory as OutOfMemory;
use thiserror::Error;

/// The fault of a spool text.
#[derive(Clone, Copy, Debug, PartialEq, Eq, Error)]
pub enum SpoolFault {
    /// The first line, counted from 1, that is no item, has a log of an earlier line, or lacks its LF.
    #[error("bad spool {line}")]
    Bad { line: u64 },
    /// Memory ran out.
    #[error("no memory")]
    NoMemory,
}

impl From<OutOfMemory> for SpoolFault {
    ghost from_gives = { λ _ e. e ≡ faults.NoMemory };

    fn from(_refused: OutOfMemory) -> SpoolFault {
        SpoolFault::NoMemory
    }
}
