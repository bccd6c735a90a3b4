//! What a history of the cluster says: its jobs, scans, tickets, logs and pools, and the reply of
//! each event, each told by looking back over the accepted entries.
#![tactic(auto)]

pub mod laws;
pub mod scan;
pub mod settings;
pub mod taken;

pub use scan::{PageEntry, Scan};
pub use settings::Settings;
pub use taken::TakenLog;
