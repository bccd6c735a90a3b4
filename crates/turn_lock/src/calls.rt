//! The calls of the lock: a turn at the machine, and seats that are split, joined and closed.
ghost use Rattle.std.specs.Prelude.{◌≡◌, ℕ, ◌%◌, ◌+◌, ◌-◌, ◌<◌, ◌≤◌, [], ◌∷◌, length, Some, None, true, false, IfOk, IfErr, OnOk, IsOk, MatchBool};
ghost use Rattle.turn_lock.specs.Places.{IsPrefix, capped, upto};
ghost use Rattle.turn_lock.specs.Seats.{Opened, IsSameSeat, SameRefusals, OneMoreRefusal, IsLegalSeat, Adds, Sees, first_seat, split_seat, joined_seat};
ghost use Rattle.turn_lock.specs.Steps.{HasTurn, Took, HoldsMachine, acted, leaving, giving, newcomer};

use crate::machine::Machine;
use crate::seat::Seat;
use crate::shared::Shared;
use crate::steps::{Both, Count, Cut, Draw, Entered, Given, Look, Place, Serve, Settle};
use crate::view::Held;
use atomic_table::Table;
use job_values::NoMemory;
use std::alloc::Global;
use std::hint;
use std::marker::Brand;
use std::snapshot::Snapshot;
use std::sync::Wait;
use std::sync::atomic::{AtomicU64, Ordering};

/// The parts of all seats of a lock, 2^63.
const ALL_PARTS: u64 = 1 << 63;

/// The words of the table: the entries of the history, the tickets drawn and those served.
const ENTRIES: usize = 0;

const DRAWN: usize = 1;

const SERVED: usize = 2;

/// A seat looks again and again where this many turns are left at most, and else sleeps.
const NEAR: u64 = 3;

/// How often it looks before it sleeps.
const SPINS: u32 = 200;

// The machine in a slot, with no entries. Want of memory drops it.
fn one_slot<M: Machine>(alloc: Global, machine: M) -> Result<Vec<Option<Held<M>>>, NoMemory>
    ensures { IfOk result (λ v. v.items ≡ Some (record { machine = machine; entries = 0 }) ∷ []) }
{
    let mut slots = Vec::new(alloc);
    match slots.push(Some(Held {
        machine,
        entries: 0,
    })) {
        Ok(()) => Ok(slots),
        Err(_) => Err(NoMemory),
    }
}

impl<M: Machine> Shared<M> {
    /// Shares a machine that stands for its opening without entries. Want of memory drops it.
    pub fn new(alloc: Global, machine: M) -> Result<(Shared<M>, Seat<M>), NoMemory>
        requires { M.stands (M.opening machine) [] machine }
        ensures { IfOk result (λ r. r.1 ≡ first_seat r.0 (M.opening machine)) }
    {
        let first = Snapshot::of(&machine);
        let slots = one_slot(alloc, machine)?;
        match Table::new(alloc, &[0, 0, 0], slots, &first) {
            Ok((table, place)) => Ok((
                Shared {
                    table,
                    sleepers: AtomicU64::new(0),
                },
                Seat {
                    place,
                    parts: ALL_PARTS,
                    refusals: 0,
                    last: None,
                },
            )),
            Err(_) => Err(NoMemory),
        }
    }

    /// Lets the machine take the event in a turn of this seat. It may wait for other seats.
    pub fn act<R: Wait>(
        &self,
        rt: &R,
        seat: &mut Seat<M>,
        event: &M::Event,
    ) -> Result<M::Reply, M::Refused>
        requires { seat.old.shared ≡ self.now }
        ensures same { IsSameSeat seat.old seat.new }
        ensures done { IfOk result (λ r. Adds M.legal seat.old (event.now, r) seat.new) }
        ensures refused { IfErr result (λ x. Sees (λ o log. M.legal o log × M.refuses o log event.now x) seat.old seat.new) }
        ensures no_refusal { OnOk result (SameRefusals seat.old seat.new) }
        ensures refusals { IfErr result (λ x. MatchBool (M.is_want x) (SameRefusals seat.old seat.new) (OneMoreRefusal seat.old x seat.new)) }
    {
        self.enter(rt, &mut seat.place);
        match self.turn(&mut seat.place, event) {
            Ok(reply) => Ok(reply),
            Err(refused) => {
                if M::is_memory(&refused) {
                    return Err(refused);
                }
                seat.refusals = seat.refusals.saturating_add(1);
                seat.last = Some(refused);
                Err(refused)
            }
        }
    }

    // Draws a ticket and waits until it is served.
    fn enter<R: Wait>(&self, rt: &R, place: &mut Place<M>)
        requires here { place.old.table_id ≡ self.now }
        requires idle { (place.old.me.1 ≡ []) × (place.old.me.0.ticket ≡ None) × (place.old.me.0.holds ≡ false) }
        requires part { 0 < place.old.me.0.parts }
        ensures here { (place.new.table_id ≡ place.old.table_id) × (place.new.id ≡ place.old.id) }
        ensures turn { HasTurn M.stands place.old.me.0 place.new.me }
    {
        let ticket = self.table.shared.fetch_add::<Draw>(place, DRAWN, 1);
        self.wait_turn(rt, place, ticket);
    }

    // Looks until the ticket is served, and takes the machine.
    fn wait_turn<R: Wait>(&self, rt: &R, place: &mut Place<M>, ticket: u64)
        requires here { place.old.table_id ≡ self.now }
        requires drawn { (t : ℕ) × (place.old.me.0.ticket ≡ Some t) × (ticket ≡ t % 18446744073709551616) }
        requires idle { (place.old.me.1 ≡ []) × (place.old.me.0.holds ≡ false) }
        ensures here { (place.new.table_id ≡ place.old.table_id) × (place.new.id ≡ place.old.id) }
        ensures turn { Took M.stands place.old.me place.new.me }
    {
        for _ in rt.forever() {
            let served = self.table.shared.load::<Look<M>>(place, SERVED);
            if served == ticket {
                return;
            }
            if ticket.wrapping_sub(served) > NEAR || !self.moves_on(served) {
                self.sleepers.fetch_add(1, Ordering::SeqCst);
                self.table
                    .shared
                    .park(rt, SERVED, (served & 0xffff_ffff) as u32);
                self.sleepers.fetch_sub(1, Ordering::SeqCst);
            }
        }
        unreachable!()
    }

    // Whether another ticket is served within a short while.
    fn moves_on(&self, served: u64) -> bool {
        for _ in 0..SPINS {
            if self.table.shared.peek(SERVED) != served {
                return true;
            }
            hint::spin_loop();
        }
        false
    }

    // Takes the machine out of the slot that the seat holds.
    fn take_out(&self, place: &mut Place<M>) -> Held<M>
        requires here { place.old.table_id ≡ self.now }
        requires turn { (h : Held M) × (place.old.me.1 ≡ (0, Some h) ∷ []) × HoldsMachine M.stands place.old.me.0 h.machine h.entries }
        ensures here { (place.new.table_id ≡ place.old.table_id) × (place.new.id ≡ place.old.id) }
        ensures out { place.new.me ≡ (place.old.me.0, (0, None) ∷ []) }
        ensures machine { HoldsMachine M.stands place.old.me.0 result.machine result.entries }
    {
        match self.table.shared.exchange(place, 0, None) {
            Some(held) => held,
            None => unreachable!(),
        }
    }

    // Steps the machine in its turn, counts the entry, and puts the machine back.
    fn turn(&self, place: &mut Place<M>, event: &M::Event) -> Result<M::Reply, M::Refused>
        requires here { place.old.table_id ≡ self.now }
        requires turn { (h : Held M) × (place.old.me.1 ≡ (0, Some h) ∷ []) × HoldsMachine M.stands place.old.me.0 h.machine h.entries }
        ensures here { (place.new.table_id ≡ place.old.table_id) × (place.new.id ≡ place.old.id) }
        ensures done { IfOk result (λ r. place.new.me ≡ (leaving (acted place.old.me.0 (event.now, r)), [])) }
        ensures refused { IfErr result (λ x. (place.new.me ≡ (leaving place.old.me.0, [])) × ((o : M.Opening) → place.old.me.0.opening ≡ Some o → M.refuses o place.old.me.0.seen event.now x)) }
        ensures legally { (o : M.Opening) → place.old.me.0.opening ≡ Some o → M.legal o place.new.me.0.seen }
    {
        let Held {
            mut machine,
            entries,
        } = self.take_out(place);
        match machine.step(event) {
            Ok(reply) => {
                self.count::<Brand>(place, event, &reply);
                self.leave(place, machine, entries.saturating_add(1));
                Ok(reply)
            }
            Err(refused) => {
                self.leave(place, machine, entries);
                Err(refused)
            }
        }
    }

    // Counts one more entry of the history.
    fn count<J: Entered<M::Event, M::Reply>>(
        &self,
        place: &mut Place<M>,
        event: &M::Event,
        reply: &M::Reply,
    )
        requires here { place.old.table_id ≡ self.now }
        requires entry { J.entry ≡ Some (event.now, reply.now) }
        requires holds { place.old.me.0.holds ≡ true }
        ensures here { (place.new.table_id ≡ place.old.table_id) × (place.new.id ≡ place.old.id) }
        ensures counted { place.new.me ≡ (acted place.old.me.0 (event.now, reply.now), place.old.me.1) }
    {
        let _ = event;
        let _ = reply;
        self.table.shared.fetch_add::<Count<J>>(place, ENTRIES, 1);
    }

    // Puts the machine back, and serves the next ticket.
    fn leave(&self, place: &mut Place<M>, machine: M, entries: u64)
        requires here { place.old.table_id ≡ self.now }
        requires out { place.old.me.1 ≡ (0, None) ∷ [] }
        requires machine { HoldsMachine M.stands place.old.me.0 machine entries }
        ensures here { (place.new.table_id ≡ place.old.table_id) × (place.new.id ≡ place.old.id) }
        ensures left { place.new.me ≡ (leaving place.old.me.0, []) }
    {
        let _none = self
            .table
            .shared
            .exchange(place, 0, Some(Held { machine, entries }));
        self.table.shared.fetch_add::<Serve>(place, SERVED, 1);
        if self.sleepers.load(Ordering::SeqCst) != 0 {
            self.table.shared.wake_all(SERVED);
        }
    }

    /// Moves some of the seat's parts to a new seat, which has seen the same and has acted on
    /// nothing yet. It takes no memory and is always `Ok`.
    pub fn split(&self, seat: &mut Seat<M>, parts: u64) -> Result<Seat<M>, NoMemory>
        requires here { seat.old.shared ≡ self.now }
        requires some_part { 0 < parts }
        requires fewer { parts < seat.old.parts }
        ensures always { IsOk result }
        ensures new { IfOk result (λ s. s ≡ split_seat seat.old parts) }
        ensures rest { seat.new ≡ record seat.old { parts = seat.old.parts - parts } }
    {
        let place = self.cut::<Brand>(&mut seat.place, parts);
        seat.parts -= parts;
        Ok(Seat {
            place,
            parts,
            refusals: 0,
            last: None,
        })
    }

    fn cut<J: Given>(&self, place: &mut Place<M>, parts: u64) -> Place<M>
        requires here { place.old.table_id ≡ self.now }
        requires given { J.parts ≡ parts }
        requires some_part { 0 < parts }
        requires fewer { parts < place.old.me.0.parts }
        ensures here { (place.new.table_id ≡ place.old.table_id) × (place.new.id ≡ place.old.id) × (result.table_id ≡ place.old.table_id) }
        ensures rest { place.new.me ≡ (giving place.old.me.0 parts, place.old.me.1) }
        ensures new { result.me ≡ (newcomer place.old.me.0.opening place.old.me.0.seen parts, []) }
    {
        let _ = parts;
        self.table.shared.split_seat::<Cut<J>>(place)
    }

    /// Takes the other seat in: the longer history, of which the other's is a beginning, and the
    /// places and the parts of both.
    pub fn join(&self, seat: &mut Seat<M>, other: Seat<M>)
        requires here { seat.old.shared ≡ self.now }
        requires other_here { other.shared ≡ self.now }
        ensures joined { seat.new ≡ joined_seat seat.old other }
        ensures grows { IsPrefix seat.old.seen seat.new.seen }
        ensures told { IsPrefix other.seen seat.new.seen }
        ensures legally { IsLegalSeat M.legal seat.new }
    {
        let Seat {
            place,
            parts,
            refusals: _,
            last: _,
        } = other;
        self.table.shared.join_seat::<Both>(&mut seat.place, place);
        self.table.shared.load::<Settle>(&mut seat.place, ENTRIES);
        seat.parts += parts;
    }

    /// Takes the machine out through the last seat, with the number of its entries, up to
    /// 2^64 - 1. It may wait, and after it no seat is left.
    pub fn close<R: Wait>(&self, rt: &R, seat: Seat<M>) -> (M, u64)
        requires here { seat.shared ≡ self.now }
        requires all { seat.parts ≡ 9223372036854775808 }
        ensures machine { Opened seat.opening (λ o. M.stands o seat.seen result.0) }
        ensures entries { result.1 ≡ capped (length seat.seen) }
        ensures own { seat.own ≡ upto 0 (length seat.seen) }
        ensures legally { IsLegalSeat M.legal seat }
    {
        let Seat {
            mut place,
            parts: _,
            refusals: _,
            last: _,
        } = seat;
        self.enter(rt, &mut place);
        let Held { machine, entries } = self.take_out(&mut place);
        (machine, entries)
    }
}
