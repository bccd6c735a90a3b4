//! The lines of a script: each event as its one line, read with the exact column of a fault, and the
//! texts of replies and of the report. Lines of management requests are read in the same way.
#![tactic(auto)]

mod commands;
mod faults;
mod groups;
mod jobs;
pub mod laws;
mod limits;
mod manage_lines;
mod manage_reading;
mod manage_words;
mod nodes;
mod orders;
mod reading;
mod registrations;
mod replies;
mod results;
mod sendings;
mod words;
mod writing;

pub use faults::{LineError, LineFault};
pub use manage_lines::ManageLine;
pub use manage_reading::read_manage;
pub use reading::read_line;
pub use replies::{write_reply, write_report};
pub use writing::write_line;
