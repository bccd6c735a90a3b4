//! The answer of a call that failed, and the count of faults.
ghost use Rattle.std.specs.Prelude.{◌≡◌};
ghost use Rattle.outside.specs.Causes.{faults_after};

use thiserror::Error;

/// The outside failed. The count of faults of the object that was called rose in this call.
#[derive(Clone, Copy, Debug, PartialEq, Eq, Error)]
#[error("the outside failed")]
pub struct Failed;

/// The count of faults after one more; it stays at its greatest value.
pub(crate) fn one_more(faults: u64) -> u64
    ensures { result ≡ faults_after faults }
{
    faults.saturating_add(1)
}
