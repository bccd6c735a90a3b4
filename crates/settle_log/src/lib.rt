//! What becomes of the rows of logs: their one result, the children that it fires, the failed logs that
//! are tried again, the lost ones and the old ones.
#![tactic(auto)]

pub mod children;
pub mod cleaning;
pub mod failures;
pub mod laws;
pub mod losses;
pub mod results;
pub mod retry;

pub use children::children_of;
pub use cleaning::{clean, old};
pub use failures::{ended, failed, first_failed, mark, settled};
pub use losses::{awaited, first_lost, lost, lost_of, lost_row};
pub use results::{SettleFault, is_positive, settle};
pub use retry::{Firing, retry_of};
