//! Registrations by their last beat: a beat, a removal, and the sweep that drops the dead ones and
//! gives the automatic groups their address lists.
#![tactic(auto)]

pub mod beats;
mod keys;
pub mod laws;
mod lists;
pub mod sweeps;

pub use beats::{BeatFault, beat, remove};
pub use sweeps::{Swept, dead, sweep};
