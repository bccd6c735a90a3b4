//! Where a taken log may be sent.

use super::bounded::{Address, Addresses};

/// The addresses that a taken log may be sent to.
#[derive(Drop)]
pub enum Choice {
    /// This one.
    To(Address),
    /// The first of these that answers a beat.
    Beat(Addresses),
    /// The first of these that answers that the job is idle there.
    Idle(Addresses),
    /// None: the group's list is empty.
    NoAddress,
}
