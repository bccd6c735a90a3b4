//! An executor: runs, their results, held ids and lines, one event at a time.
#![tactic(auto)]

pub mod add;
pub mod change;
pub mod executor;
pub mod ids;
pub mod items;
pub mod known;
pub mod known_row;
mod known_rows;
pub mod last_runs;
pub mod replies;
pub mod runs;

pub use change::{Change, PreparedRun};
pub use executor::Executor;
pub use executor_laws::laws;
