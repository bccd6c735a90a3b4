//! The plans of admins: their start, their stop, the stop of all, and what is asked: whether one runs,
//! and what is known of a log; and what an opening ends.
#![tactic(auto)]

mod endings;
mod held;
pub mod nodes;
pub mod shown;

pub use endings::end_unsent;
pub use nodes::{plan_ask, plan_reopen, plan_start, plan_stop};
pub use shown::plan_read_log;
