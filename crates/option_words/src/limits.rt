//! The limits on the words of the two node programs.

/// The greatest port.
pub const LAST_PORT: u16 = 65_535;

/// The greatest port that is given to an admin program: the last of its nodes has the greatest port.
pub const LAST_FIRST_PORT: u16 = 65_472;

/// How many threads the fast pool of a node has at most.
pub const MOST_FAST: u8 = 200;

/// How many threads the slow pool of a node has at most.
pub const MOST_SLOW: u8 = 100;
