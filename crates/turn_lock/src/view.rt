//! What lies in the lock's slot, and what a seat knows of the lock.
use std::collections::LinkedList;

/// The machine, and the number of its entries, up to 2^64 - 1.
#[derive(Drop)]
pub struct Held<M> {
    pub machine: M,
    pub entries: u64,
}

/// What a seat knows. No value of it is made.
pub struct View<O, E, R> {
    pub opening: Option<O>,
    pub seen: LinkedList<(E, R)>,
    pub own: LinkedList<u64>,
    pub parts: u64,
    pub ticket: Option<u64>,
    pub holds: bool,
    /// What each of two seats had seen when they were joined.
    pub before: LinkedList<(E, R)>,
    pub told: LinkedList<(E, R)>,
    /// The opening of the second of them.
    pub also: Option<O>,
}
