//! When a job is due: cron texts, fixed rates and jobs without due times. A text is read once
//! into a `Schedule`, which then tells the due times after a moment.
#![tactic(auto)]

mod clock;
pub mod cron;
mod cron_text;
mod days;
pub mod fault;
pub mod item;
pub mod laws;
mod number;
mod piece;
pub mod plan;
mod rate;
mod reading;
pub mod schedule;
mod sets;
mod zones;

pub use fault::ParseFault;
pub use plan::Plan;
pub use schedule::Schedule;
