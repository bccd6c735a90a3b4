//! The cluster of a scheduling centre as a machine that threads share, over a keeper of its records:
//! each event is prepared, what it changes of the rows is saved, and then it is done.
#![tactic(auto)]

pub mod machine;
pub mod opening;
pub mod save;

pub use machine::{AdminMachine, AdminOpening};
pub use opening::LoadFault;
pub use save::AdminRefusal;
