//! A program that answers lines: a source's lines in, their replies and a report out, within limits,
//! with an exit status for each way in which it ends.
#![tactic(auto)]

pub mod laws;
pub mod limits;
mod machine;
mod run;
mod status;
mod stream;

pub use machine::{LineMachine, Unread};
pub use run::run_lines;
pub use status::Status;
