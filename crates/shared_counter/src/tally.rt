//! What four callers did.
use crate::counter::{Counter, Entry};

/// The entries of each of four callers, in its order, the counter, and the number of all entries,
/// up to 2^64 - 1.
#[derive(Drop)]
pub struct Tally {
    pub first: Vec<Entry>,
    pub second: Vec<Entry>,
    pub third: Vec<Entry>,
    pub fourth: Vec<Entry>,
    pub counter: Counter,
    pub entries: u64,
}
