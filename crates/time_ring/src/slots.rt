//! Work on the sixty slots: which slot a second has, and what changes there.
ghost use Rattle.std.specs.Prelude.{◌≡◌, ℕ, ◌-◌, ◌<◌, ◌≤◌, [], length, min, map, replicate, slice_set, vec_len, IfOk, OnOk, OnErr};
ghost use Rattle.time_ring.specs.Ring.{slot_of_second, slot_before, slot_of, tickets_in, room_in, with_ticket, after_turn, no_tickets, ticket_count};
ghost use Rattle.time_ring.specs.Slot.{lists_of, rooms_of};

use super::slot::Slot;
use super::ticket::{Taken, Ticket};
use job_values::limits::{SECOND, SLOTS};
use job_values::{NoMemory, Seq};
use std::alloc::Global;

pub(crate) fn slot_at(second: u64) -> usize
    ensures slot { result ≡ slot_of_second second }
    ensures within { result < SLOTS }
{
    (second % SLOTS) as usize
}

pub(crate) fn slot_past(second: u64) -> usize
    ensures slot { result ≡ slot_before second }
    ensures within { result < SLOTS }
{
    ((second % SLOTS + (SLOTS - 1)) % SLOTS) as usize
}

pub(crate) fn empty_slots(alloc: Global, count: usize) -> Result<Vec<Slot>, NoMemory>
    ensures lists { IfOk result (λ slots. lists_of slots.items ≡ replicate count []) }
    ensures length { IfOk result (λ slots. vec_len slots ≡ count) }
{
    let mut slots = Vec::with_capacity(alloc, count)?;
    for _ in 0..count {
        slots.push_reserved(Slot::new(alloc));
    }
    Ok(slots)
}

pub(crate) fn reserve_slot(slots: &mut Vec<Slot>, second: u64, count: usize) -> Result<(), NoMemory>
    requires { vec_len slots.old ≡ SLOTS }
    ensures ok { OnOk result (count ≤ room_in (rooms_of slots.new.items) (slot_of_second second)) }
    ensures same { lists_of slots.new.items ≡ lists_of slots.old.items }
    ensures room { (slot : ℕ) → room_in (rooms_of slots.old.items) slot ≤ room_in (rooms_of slots.new.items) slot }
    ensures sixty { vec_len slots.new ≡ SLOTS }
{
    let slot = &mut slots[slot_at(second)];
    slot.reserve(count)
}

pub(crate) fn put_slot(slots: &mut Vec<Slot>, ticket: Ticket)
    requires sixty { vec_len slots.old ≡ SLOTS }
    requires room { 0 < room_in (rooms_of slots.old.items) (slot_of ticket.due) }
    ensures lists { lists_of slots.new.items ≡ with_ticket (lists_of slots.old.items) ticket }
    ensures room { rooms_of slots.new.items ≡ slice_set (rooms_of slots.old.items) (slot_of ticket.due) (room_in (rooms_of slots.old.items) (slot_of ticket.due) - 1) }
    ensures sixty { vec_len slots.new ≡ SLOTS }
{
    let slot = &mut slots[slot_at(ticket.due.get() / SECOND)];
    slot.put(ticket);
}

pub(crate) fn take_slots(slots: &mut Vec<Slot>, alloc: Global, second: u64) -> Taken
    requires { vec_len slots.old ≡ SLOTS }
    ensures present { result.present ≡ tickets_in (lists_of slots.old.items) (slot_of_second second) }
    ensures past { result.past ≡ tickets_in (lists_of slots.old.items) (slot_before second) }
    ensures emptied { lists_of slots.new.items ≡ after_turn (lists_of slots.old.items) second }
    ensures sixty { vec_len slots.new ≡ SLOTS }
{
    let present = take_slot(slots, alloc, slot_at(second));
    let past = take_slot(slots, alloc, slot_past(second));
    Taken { present, past }
}

fn take_slot(slots: &mut Vec<Slot>, alloc: Global, at: usize) -> Seq<Ticket>
    requires { at < vec_len slots.old }
    ensures taken { result ≡ tickets_in (lists_of slots.old.items) at }
    ensures emptied { lists_of slots.new.items ≡ slice_set (lists_of slots.old.items) at [] }
    ensures length { vec_len slots.new ≡ vec_len slots.old }
{
    let slot = &mut slots[at];
    slot.take(alloc)
}

pub(crate) fn clear_slots(slots: &mut Vec<Slot>)
    ensures lists { lists_of slots.new.items ≡ replicate (vec_len slots.old) [] }
    ensures length { vec_len slots.new ≡ vec_len slots.old }
{
    for slot in slots.iter_mut() {
        slot.clear();
    }
}

pub(crate) fn slots_at(slots: &Vec<Slot>, second: u64) -> (&[Ticket], &[Ticket])
    requires { vec_len slots.now ≡ SLOTS }
    ensures present { result.0.now ≡ tickets_in (lists_of slots.now.items) (slot_of_second second) }
    ensures past { result.1.now ≡ tickets_in (lists_of slots.now.items) (slot_before second) }
{
    let present = &slots[slot_at(second)];
    let past = &slots[slot_past(second)];
    (present.as_slice(), past.as_slice())
}

pub(crate) fn count_tickets(slots: &Vec<Slot>) -> u64
    ensures { result ≡ min (ticket_count (lists_of slots.now.items)) (u64.MAX) }
{
    let mut count: u64 = 0;
    for slot in slots {
        count = count.saturating_add(slot.len() as u64);
    }
    count
}
