//! What a plan of an event is: what a cluster keeps, lent to be read, and what is prepared for an
//! event, its reply and all that it changes. The plans themselves stand in crates above.
#![tactic(auto)]

pub mod node;
pub mod prepared;
pub mod seen;
pub mod zones;

pub use node::Node;
pub use prepared::{Entering, NodeChange, Pick, Prepared};
pub use seen::Seen;
pub use zones::{zone_of, zone_said};
