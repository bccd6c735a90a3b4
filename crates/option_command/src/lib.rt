//! The command lines of the two node programs: their words, read by `clap` into the options that they say,
//! or refused by name.
#![tactic(auto)]

mod admin;
mod build;
mod executor;
mod forms;
mod refusal;
mod said;

pub use admin::{AdminOptions, read_admin};
pub use executor::{ExecutorOptions, read_executor};
pub use refusal::WordsRefusal;
