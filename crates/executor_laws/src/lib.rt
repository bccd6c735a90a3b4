//! The laws of executors: held ids, results, lanes, places.
#![tactic(auto)]

pub mod laws;
