//! The ring of an admin node: sixty slots of waiting tickets, one for each second of a minute.
#![tactic(auto)]

pub mod laws;
pub mod ring;
mod slot;
mod slots;
pub mod ticket;

pub use ring::TimeRing;
pub use ticket::{Taken, Ticket};

#[cfg(test)]
mod tests;
