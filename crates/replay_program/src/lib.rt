//! The replay of a script of events: lines in, replies and a report out.
#![tactic(auto)]

pub mod laws;
pub mod limits;
mod machine;
mod next;
mod replay;
mod words;

pub use replay::replay_main;
