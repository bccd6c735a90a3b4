//! The plans of scans and their steps, of the turns of the rings, and of firings by hand.
#![tactic(auto)]

pub mod fires;
pub mod looks;
pub mod pages;
pub mod scans;
pub mod turns;

pub use fires::plan_fire;
pub use scans::{plan_scan, plan_step};
pub use turns::plan_turn;
