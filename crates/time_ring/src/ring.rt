//! The ring: sixty slots, and the calls of a turn.
ghost use Rattle.std.specs.Prelude.{◌≡◌, ℕ, ◌-◌, ◌<◌, ◌≤◌, [], length, min, replicate, slice_set, IfOk, OnOk, OnErr};
ghost use Rattle.time_ring.specs.Ring.{slot_of, slot_of_second, slot_before, tickets_in, room_in, with_ticket, after_turn, no_tickets, ticket_count};

use super::slot::Slot;
use super::slots::{
    clear_slots, count_tickets, empty_slots, put_slot, reserve_slot, slots_at, take_slots,
};
use super::ticket::{Taken, Ticket};
use job_values::limits::{SECOND, SLOTS};
use job_values::{Moment, NoMemory};
use std::alloc::Global;
use std::marker::Model;

/// The waiting tickets of one admin node, by the second of the minute at which they are due.
#[derive(Drop)]
pub struct TimeRing {
    slots: Vec<Slot>,
    alloc: Global,
}

impl Model for TimeRing {
    ghost use Rattle.std.specs.Prelude.{◌≡◌, vec_len};
    ghost use Rattle.job_values.specs.declared.limits.TheConstants.{SLOTS};
    ghost use Rattle.time_ring.specs.Ring.{Ring};
    ghost use Rattle.time_ring.specs.Slot.{lists_of, rooms_of};

    ghost Value = { Ring };

    ghost view = { λ r. record { slots = lists_of r.slots.items; room = rooms_of r.slots.items } };

    ghost invariant = { λ r. vec_len r.slots ≡ SLOTS };
}

impl TimeRing {
    /// The ring without tickets. Its later calls take their memory from the same place.
    pub fn new(alloc: Global) -> Result<TimeRing, NoMemory>
        ensures { IfOk result (λ ring. ring.slots ≡ no_tickets) }
    {
        Ok(TimeRing {
            slots: empty_slots(alloc, SLOTS as usize)?,
            alloc,
        })
    }

    /// Makes room for `count` more tickets that are due in the second of `due`. It moves no ticket,
    /// whatever it answers.
    pub fn reserve(&mut self, due: Moment, count: usize) -> Result<(), NoMemory>
        ensures ok { OnOk result (count ≤ room_in self.new.room (slot_of due)) }
        ensures same { self.new.slots ≡ self.old.slots }
        ensures room { (slot : ℕ) → room_in self.old.room slot ≤ room_in self.new.room slot }
    {
        let second = due.get() / SECOND;
        reserve_slot(&mut self.slots, second, count)
    }

    /// Puts a ticket behind those of its slot, for which `reserve` made room.
    pub fn put(&mut self, ticket: Ticket)
        requires { 0 < room_in self.old.room (slot_of ticket.due) }
        ensures slots { self.new.slots ≡ with_ticket self.old.slots ticket }
        ensures room { self.new.room ≡ slice_set self.old.room (slot_of ticket.due) (room_in self.old.room (slot_of ticket.due) - 1) }
    {
        put_slot(&mut self.slots, ticket);
    }

    /// Takes the tickets of the slot of a second, and those of the slot before. The room of both
    /// slots goes with them.
    pub fn take(&mut self, second: u64) -> Taken
        ensures present { result.present ≡ tickets_in self.old.slots (slot_of_second second) }
        ensures past { result.past ≡ tickets_in self.old.slots (slot_before second) }
        ensures emptied { self.new.slots ≡ after_turn self.old.slots second }
    {
        take_slots(&mut self.slots, self.alloc, second)
    }

    /// Drops all tickets, and answers how many they were.
    pub fn clear(&mut self) -> u64
        ensures lost { result ≡ min (ticket_count self.old.slots) (u64.MAX) }
        ensures emptied { self.new.slots ≡ no_tickets }
    {
        let lost = self.count();
        clear_slots(&mut self.slots);
        lost
    }

    /// What `take` at a second would give: the tickets of its slot, and of the slot before.
    pub fn slots(&self, second: u64) -> (&[Ticket], &[Ticket])
        ensures present { result.0.now ≡ tickets_in self.now.slots (slot_of_second second) }
        ensures past { result.1.now ≡ tickets_in self.now.slots (slot_before second) }
    {
        slots_at(&self.slots, second)
    }

    /// The number of tickets, or the greatest number of its type where there are more.
    pub fn count(&self) -> u64
        ensures { result ≡ min (ticket_count self.now.slots) (u64.MAX) }
    {
        count_tickets(&self.slots)
    }
}
