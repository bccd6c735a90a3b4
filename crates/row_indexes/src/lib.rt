//! Indexes of rows, kept with them: the running jobs by their next times, and the logs that are looked
//! at as failed ones or as lost ones, by their ids.
#![tactic(auto)]

mod due_index;
mod log_index;
mod moves;
mod pages;

pub use due_index::DueIndex;
pub use log_index::{LogClass, LogIndex};
pub use pages::page_of;
