//! One machine for many threads. Each thread acts on it through a seat of its own, in turns, and
//! what all seats see are beginnings of one history: the entries of all acts, in one order, each
//! legal after those before it, and each seat's own acts once.
#![tactic(auto)]

mod calls;
pub mod machine;
pub mod seat;
pub mod shared;
pub mod steps;
pub mod view;

pub use machine::Machine;
pub use seat::Seat;
pub use shared::Shared;
