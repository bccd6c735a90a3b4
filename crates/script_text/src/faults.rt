//! Why a line is none.

use thiserror::Error;

/// Where a line stops to be one.
#[derive(Clone, Copy, Debug, PartialEq, Eq)]
pub struct LineFault {
    /// The place, counted from 1, of the first byte that no line has there.
    pub column: u32,
}

/// Why a line was not read.
#[derive(Clone, Copy, Debug, PartialEq, Eq, Error)]
pub enum LineError {
    /// The bytes are no line.
    #[error("bad line at column {}", .0.column)]
    Bad(LineFault),
    /// Memory ran out.
    #[error("no memory")]
    NoMemory,
}
