//! A counter with a limit that many threads share through a turn lock: what each of them was
//! answered is part of one history.
#![tactic(auto)]

pub mod callers;
pub mod counter;
pub mod tally;
pub mod work;

pub use callers::count_by_four;
pub use counter::{Add, Counter, Entry, OverLimit};
pub use tally::Tally;

#[cfg(test)]
mod tests;
