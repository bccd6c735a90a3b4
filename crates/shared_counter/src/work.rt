//! A caller's work as a value that may be handed to a thread: the lock, its seat and what to add.
ghost use Rattle.std.specs.Prelude.{◌≡◌, [], ◌∷◌, IfOk};
ghost use Rattle.std.specs.Arc.{arc_value};

use crate::counter::{Counter, Entry};
use std::alloc::Global;
use std::sync::Arc;
use turn_lock::{Seat, Shared};

/// Adds `by`, `acts` times. The seat belongs to the lock.
#[derive(Drop)]
pub struct AddWork {
    pub shared: Arc<Shared<Counter>, Global>,
    pub seat: Seat<Counter>,
    pub by: u64,
    pub acts: u32,
    pub ghost here: { seat.shared ≡ arc_value shared },
}
