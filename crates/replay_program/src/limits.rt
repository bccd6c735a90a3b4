//! The limits on the words of a command.

/// How many threads the fast pool of an admin has at most.
pub const MOST_FAST: u8 = 200;

/// How many threads the slow pool of an admin has at most.
pub const MOST_SLOW: u8 = 100;

/// How many times of a schedule are told at most.
pub const MOST_TIMES: u32 = 1_000;
