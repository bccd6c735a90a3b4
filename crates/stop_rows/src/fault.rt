//! Why the plays came to no end.

use job_values::NoMemory;
use std::alloc::AllocError;
use std::io;

/// Why the plays came to no end.
#[derive(Clone, Copy, PartialEq, Eq)]
pub enum Fault {
    Memory,
    /// A line of the script is none.
    BadLine,
    /// The keeper failed.
    Keeper,
}

impl From<NoMemory> for Fault {
    fn from(_: NoMemory) -> Fault {
        Fault::Memory
    }
}

impl From<AllocError> for Fault {
    fn from(_: AllocError) -> Fault {
        Fault::Memory
    }
}

impl From<Fault> for io::Error {
    fn from(fault: Fault) -> io::Error {
        match fault {
            Fault::Memory => io::Error::from(io::ErrorKind::OutOfMemory),
            Fault::BadLine => io::Error::from(io::ErrorKind::InvalidData),
            Fault::Keeper => io::Error::from(io::ErrorKind::Other),
        }
    }
}
