//! The rule of the lock's table, and the kinds of step on its words: the count of the history, the
//! tickets drawn and the tickets served.
ghost use Rattle.std.specs.Prelude.{◌≡◌, ℕ, [], Option, None, Some};
ghost use Rattle.turn_lock.specs.Turns.{Kept};
ghost use Rattle.turn_lock.specs.Steps.{newcomer, nobody, giving, joined, Drew, Looked, Counted, Served, Settled};

use crate::machine::Machine;
use crate::view::{Held, View};
use atomic_table::{Join, Play, Seat, Split, TableRule};
use std::marker::{Brand, PhantomData};
use std::snapshot::Snapshot;

/// What a seat at the table knows of a machine's history.
pub type ViewOf<M> = View<<M as Machine>::Opening, <M as Machine>::Event, <M as Machine>::Reply>;

/// A seat at the table.
pub type Place<M> = Seat<Option<Held<M>>, ViewOf<M>>;

/// The rule: one history for all seats.
pub struct Turns<M> {
    of: PhantomData<M>,
}

impl<M: Machine> TableRule<Option<Held<M>>, ViewOf<M>, Snapshot<M>> for Turns<M> {
    ghost holds = { λ key. Kept M.stands (M.opening key.value) };

    ghost first = { λ key. newcomer (Some (M.opening key.value)) [] 9223372036854775808 };
}

/// The kind "draw": one more ticket.
pub(crate) struct Draw;

impl<O, E, R, M> Play<Option<Held<M>>, View<O, E, R>> for Draw {
    ghost then = { λ _. Drew };
}

/// The kind "look": whether the ticket is served.
pub(crate) struct Look<M> {
    of: PhantomData<M>,
}

impl<M: Machine> Play<Option<Held<M>>, ViewOf<M>> for Look<M> {
    ghost then = { λ _. Looked M.stands };
}

/// The entry that a step counts. A call at `Brand` picks it.
pub(crate) trait Entered<E, R> {
    ghost entry: { Option (E × R) };
}

impl<E, R> Entered<E, R> for Brand {
    ghost entry = { None };
}

/// The kind "count": one more entry of the history.
pub(crate) struct Count<J> {
    of: PhantomData<J>,
}

impl<O, E, R, M, J: Entered<E, R>> Play<Option<Held<M>>, View<O, E, R>> for Count<J> {
    ghost then = { λ _. Counted J.entry };
}

/// The kind "serve": one more ticket is served.
pub(crate) struct Serve;

impl<O, E, R, M> Play<Option<Held<M>>, View<O, E, R>> for Serve {
    ghost then = { λ _. Served };
}

/// The parts that a split gives away. A call at `Brand` picks them.
pub(crate) trait Given {
    ghost parts: { ℕ };
}

impl Given for Brand {
    ghost parts = { 0 };
}

/// The kind "split": a new seat with some of the parts.
pub(crate) struct Cut<J> {
    of: PhantomData<J>,
}

impl<O, E, R, J: Given> Split<View<O, E, R>> for Cut<J> {
    ghost left = { λ v. giving v J.parts };

    ghost right = { λ v. newcomer v.opening v.seen J.parts };
}

/// The kind "join": the seats are one.
pub(crate) struct Both;

impl<O, E, R> Join<View<O, E, R>> for Both {
    ghost both = { joined };

    ghost spent = { nobody };
}

/// The second half of the kind "join": what both had seen begins what the joined seat has seen.
pub(crate) struct Settle;

impl<O, E, R, M> Play<Option<Held<M>>, View<O, E, R>> for Settle {
    ghost then = { λ _. Settled };
}
