//! One slot of the ring: its tickets in the order in which they came.
ghost use Rattle.std.specs.Prelude.{◌≡◌, ℕ, ◌-◌, ◌<◌, ◌≤◌, [], ◌∷◌, ◌++◌, length, OnOk, OnErr};

use super::ticket::Ticket;
use job_values::{NoMemory, Seq};
use std::alloc::Global;
use std::marker::Model;

#[derive(Drop)]
pub(crate) struct Slot {
    tickets: Vec<Ticket>,
}

impl Model for Slot {
    ghost use Rattle.std.specs.Prelude.{◌-◌, vec_len, vec_capacity};
    ghost use Rattle.time_ring.specs.Slot.{WaitingTickets};

    ghost Value = { WaitingTickets };

    ghost view = { λ s. record { tickets = s.tickets.items; room = vec_capacity s.tickets - vec_len s.tickets } };
}

impl Slot {
    pub(crate) fn new(alloc: Global) -> Slot
        ensures { result.tickets ≡ [] }
    {
        Slot {
            tickets: Vec::new(alloc),
        }
    }

    pub(crate) fn reserve(&mut self, count: usize) -> Result<(), NoMemory>
        ensures ok { OnOk result (count ≤ self.new.room) }
        ensures tickets { self.new.tickets ≡ self.old.tickets }
        ensures room { self.old.room ≤ self.new.room }
    {
        self.tickets.reserve(count)?;
        Ok(())
    }

    pub(crate) fn put(&mut self, ticket: Ticket)
        requires { 0 < self.old.room }
        ensures tickets { self.new.tickets ≡ self.old.tickets ++ ticket ∷ [] }
        ensures room { self.new.room ≡ self.old.room - 1 }
    {
        self.tickets.push_reserved(ticket);
    }

    pub(crate) fn take(&mut self, alloc: Global) -> Seq<Ticket>
        ensures taken { result ≡ self.old.tickets }
        ensures emptied { self.new.tickets ≡ [] }
    {
        Seq::of(std::mem::replace(&mut self.tickets, Vec::new(alloc)))
    }

    pub(crate) fn clear(&mut self)
        ensures { self.new.tickets ≡ [] }
    {
        self.tickets.clear();
    }

    pub(crate) fn as_slice(&self) -> &[Ticket]
        ensures { result.now ≡ self.now.tickets }
    {
        self.tickets.as_slice()
    }

    pub(crate) fn len(&self) -> usize
        ensures { result ≡ length self.now.tickets }
    {
        self.tickets.len()
    }
}
