//! The results of an executor's runs until an admin has them: waiting, out in a batch, or spooled.
#![tactic(auto)]

pub mod batch;
pub mod callbacks;
pub mod laws;
#[cfg(test)]
mod tests;

pub use callbacks::{CallbackRefusal, Callbacks};
