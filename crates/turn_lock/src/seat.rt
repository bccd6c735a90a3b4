//! A thread's seat at the lock.
ghost use Rattle.std.specs.Prelude.{◌≡◌, ◌<◌, ◌≤◌, length};

use crate::machine::Machine;
use crate::steps::Place;
use std::marker::Model;

/// The right to act on a shared machine. Contracts see it as its lock, the history that it has
/// seen, its own places in it, its parts, and how many of its acts were refused for another cause
/// than memory, with the last such refusal.
#[derive(Drop)]
pub struct Seat<M: Machine> {
    pub(crate) place: Place<M>,
    pub(crate) parts: u64,
    pub(crate) refusals: u64,
    pub(crate) last: Option<M::Refused>,
}

impl<M: Machine> Model for Seat<M> {
    ghost use Rattle.turn_lock.specs.Seats.{SeatView, seat_view, IsSeated};

    ghost Value = { SeatView M.Opening M.Event M.Reply M.Refused };

    ghost view = { λ s. seat_view s.place.table_id s.place.me.0 s.parts s.refusals s.last };

    ghost invariant = { λ s. IsSeated M.legal s.place.me s.parts };
}

impl<M: Machine> Seat<M> {
    ghost use Rattle.turn_lock.specs.Places.{RisesFrom};
    ghost use Rattle.turn_lock.specs.Seats.{IsLegalSeat};

    /// The parts of this seat, from 1 to 2^63.
    pub fn parts(&self) -> u64
        ensures value { result ≡ self.now.parts }
        ensures bounds { (0 < result) × (result ≤ 9223372036854775808) }
        ensures rising { RisesFrom 0 self.now.own (length self.now.seen) }
        ensures legally { IsLegalSeat M.legal self.now }
    {
        self.parts
    }

    /// How many acts of this seat were refused for another cause than memory, up to 2^64 - 1, and
    /// the last such refusal.
    pub fn refused(&self) -> (u64, Option<M::Refused>)
        ensures { result ≡ (self.now.refusals, self.now.last) }
    {
        (self.refusals, self.last)
    }
}
