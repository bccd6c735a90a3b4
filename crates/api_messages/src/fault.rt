//! Why a body is no message.
ghost use Rattle.std.specs.Prelude.{◌≡◌};
ghost use Rattle.api_messages.specs.declared.fault.MessageFault.TheVariants as faults;

use job_values::Text;
use std::alloc::{AllocError, AllocFailed};
use thiserror::Error;

/// The first fault of a body, in this order but for `TooLong`, which comes first for the bytes.
#[derive(Debug, Drop, Error)]
pub enum MessageFault {
    /// The body is no JSON, or nests more than 127 deep.
    #[error("not JSON")]
    NotJson,
    /// The body is no object, or for callbacks no array of objects.
    #[error("wrong shape")]
    WrongShape,
    /// A member is missing or out of form: the first in byte order of names, in the first faulty item.
    #[error("faulty member")]
    Member { which: Text },
    /// The body has more than `LONGEST_BODY` bytes, or a callback more than `BATCH_ITEMS` items.
    #[error("too long")]
    TooLong,
    /// Memory ran out.
    #[error("no memory")]
    NoMemory,
}

impl MessageFault {
    ghost use Rattle.api_messages.specs.Faults.{fault_number};

    /// The number of the fault, from 1 to 5.
    pub fn number(&self) -> u8
        ensures { result ≡ fault_number self.now }
    {
        match self {
            MessageFault::NotJson => 1,
            MessageFault::WrongShape => 2,
            MessageFault::Member { .. } => 3,
            MessageFault::TooLong => 4,
            MessageFault::NoMemory => 5,
        }
    }
}

impl From<AllocError> for MessageFault {
    ghost from_gives = { λ _ e. e ≡ faults.NoMemory };

    fn from(_refused: AllocError) -> MessageFault {
        MessageFault::NoMemory
    }
}

impl<T: Drop> From<AllocFailed<T>> for MessageFault {
    ghost from_gives = { λ _ e. e ≡ faults.NoMemory };

    fn from(_refused: AllocFailed<T>) -> MessageFault {
        MessageFault::NoMemory
    }
}
