//! Lists of rows in rising order of their keys: how a row is found, put and taken by its key. Each
//! look-up is a binary search.
#![tactic(auto)]

pub mod edits;
pub mod keyed;
pub mod look_ups;
pub mod seats;

pub use edits::{put, take, take_all};
pub use keyed::Keyed;
pub use look_ups::{has_row, place_from, place_of, row_of};
pub use seats::{put_at, take_at};

#[cfg(test)]
mod tests;
