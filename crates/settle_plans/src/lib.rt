//! The plans of results with the children that they fire, of failed logs that are tried again, and of
//! lost and old logs.
#![tactic(auto)]

pub mod changes;
pub mod children;
pub mod cleaning;
pub mod losses;
pub mod results;
pub mod retries;

pub use cleaning::plan_clean;
pub use losses::plan_lost;
pub use results::plan_callback;
pub use retries::plan_monitor;
