//! Zone texts: a clock some seconds off that of Greenwich, and where it is moved, the two days of
//! the year on which that happens. A text is read once into a `Zone`.
#![tactic(auto)]

pub mod laws;
mod reading;
mod zone;

pub use zone::{ChangeRule, Zone, ZoneRules};
