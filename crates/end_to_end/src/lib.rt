//! Tests that cross crates, or that would make a crate with dear proofs be proved twice: calls over
//! memory whose reads and writes fail, and calls that no worked row reaches.
#![tactic(auto)]

#[cfg(test)]
mod executor_lines;
#[cfg(test)]
mod executors;
#[cfg(test)]
mod records;
#[cfg(test)]
mod replays;
