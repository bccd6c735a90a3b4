//! Four threads that add, each through a seat of its own, until the last seat is closed.
ghost use Rattle.std.specs.Prelude.{◌≡◌, ◌+◌, ◌<◌, [], ◌∷◌, length, vec_len, IfOk, OnOk};
ghost use Rattle.turn_lock.specs.Gains.{Gains};
ghost use Rattle.turn_lock.specs.Seats.{IsSameSeat};
ghost use Rattle.shared_counter.specs.Counting.{IsLegal};
ghost use Rattle.shared_counter.specs.Tallied.{IsTallyOf};
ghost use Rattle.shared_counter.specs.Dealt.{GainsOne, HasDone, HasMade, HaveMade};

use crate::counter::{Add, Counter, Entry};
use crate::tally::Tally;
use job_values::NoMemory;
use std::alloc::Global;
use std::sync::Wait;
use std::thread::{Threads, join};
use turn_lock::{Seat, Shared};

/// Half of the parts of all seats.
const HALF: u64 = 1 << 62;

// One act through the seat, whose entry goes to the others unless it was refused.
fn add_once<R: Wait>(
    rt: &R,
    shared: &Shared<Counter>,
    seat: &mut Seat<Counter>,
    add: Add,
    entries: &mut Vec<Entry>,
) -> Result<(), NoMemory>
    requires here { seat.old.shared ≡ shared.now }
    ensures done { OnOk result (GainsOne add.by seat.old entries.old.items seat.new entries.new.items) }
{
    match shared.act(rt, seat, &add) {
        Ok(reply) => match entries.push((add, reply)) {
            Ok(()) => Ok(()),
            Err(_) => Err(NoMemory),
        },
        Err(_) => Ok(()),
    }
}

// Adds this often through the seat, and gives the entries. A refused act is none.
fn add_often<R: Wait>(
    rt: &R,
    alloc: Global,
    shared: &Shared<Counter>,
    seat: &mut Seat<Counter>,
    by: u64,
    acts: u32,
) -> Result<Vec<Entry>, NoMemory>
    requires here { seat.old.shared ≡ shared.now }
    ensures gains { IfOk result (λ v. Gains IsLegal seat.old v.items seat.new) }
    ensures made { IfOk result (λ v. HasMade by acts v.items seat.new) }
{
    let mut entries = Vec::new(alloc);
    for _i in 0..acts {
        add_once(rt, shared, seat, Add { by }, &mut entries)?;
    }
    Ok(entries)
}

// The entries of one caller, with its seat.
fn add_alone<R: Wait>(
    rt: &R,
    alloc: Global,
    shared: &Shared<Counter>,
    mut seat: Seat<Counter>,
    by: u64,
    acts: u32,
) -> Result<(Seat<Counter>, Vec<Entry>), NoMemory>
    requires here { seat.shared ≡ shared.now }
    requires fresh { seat.own ≡ [] }
    ensures { IfOk result (λ r. HasDone seat (r.1.items ∷ []) r.0 × HaveMade by acts (r.1.items ∷ []) r.0) }
{
    let entries = add_often(rt, alloc, shared, &mut seat, by, acts)?;
    let _parts = seat.parts();
    Ok((seat, entries))
}

// The entries of two callers, each in a thread, and the seat that theirs were joined to.
fn add_in_two<R: Threads + Wait + Sync>(
    rt: &R,
    alloc: Global,
    shared: &Shared<Counter>,
    mut seat: Seat<Counter>,
    by: u64,
    acts: u32,
) -> Result<(Seat<Counter>, Vec<Entry>, Vec<Entry>), NoMemory>
    requires here { seat.shared ≡ shared.now }
    requires fresh { seat.own ≡ [] }
    requires enough { 1 < seat.parts }
    ensures { IfOk result (λ r. HasDone seat (r.1.items ∷ r.2.items ∷ []) r.0 × HaveMade by acts (r.1.items ∷ r.2.items ∷ []) r.0) }
{
    let other = shared.split(&mut seat, 1)?;
    let (left, right) = join(
        rt,
        move || -> Result<(Seat<Counter>, Vec<Entry>), NoMemory>
            requires { (seat.shared ≡ shared.now) × (seat.own ≡ []) }
            ensures { IfOk result (λ r. HasDone seat (r.1.items ∷ []) r.0 × HaveMade by acts (r.1.items ∷ []) r.0) }
        { add_alone(rt, alloc, shared, seat, by, acts) },
        move || -> Result<(Seat<Counter>, Vec<Entry>), NoMemory>
            requires { (other.shared ≡ shared.now) × (other.own ≡ []) }
            ensures { IfOk result (λ r. HasDone other (r.1.items ∷ []) r.0 × HaveMade by acts (r.1.items ∷ []) r.0) }
        { add_alone(rt, alloc, shared, other, by, acts) },
    );
    let (mut seat, first) = left?;
    let (other, second) = right?;
    shared.join(&mut seat, other);
    Ok((seat, first, second))
}

/// Lets four threads add to the counter, each this often unless there is no room left. The entries
/// of all of them are one history of the counter: each thread's stand in it in their order, and
/// each place of it is one thread's, once.
pub fn count_by_four<R: Threads + Wait + Sync>(
    rt: &R,
    alloc: Global,
    counter: Counter,
    by: u64,
    acts: u32,
) -> Result<Tally, NoMemory>
    ensures { IfOk result (IsTallyOf counter by acts) }
{
    let (shared, mut seat) = Shared::new(alloc, counter)?;
    let other = shared.split(&mut seat, HALF)?;
    let lock = &shared;
    let (left, right) = join(
        rt,
        move || -> Result<(Seat<Counter>, Vec<Entry>, Vec<Entry>), NoMemory>
            requires { (seat.shared ≡ lock.now) × (seat.own ≡ []) × (1 < seat.parts) }
            ensures { IfOk result (λ r. HasDone seat (r.1.items ∷ r.2.items ∷ []) r.0 × HaveMade by acts (r.1.items ∷ r.2.items ∷ []) r.0) }
        { add_in_two(rt, alloc, lock, seat, by, acts) },
        move || -> Result<(Seat<Counter>, Vec<Entry>, Vec<Entry>), NoMemory>
            requires { (other.shared ≡ lock.now) × (other.own ≡ []) × (1 < other.parts) }
            ensures { IfOk result (λ r. HasDone other (r.1.items ∷ r.2.items ∷ []) r.0 × HaveMade by acts (r.1.items ∷ r.2.items ∷ []) r.0) }
        { add_in_two(rt, alloc, lock, other, by, acts) },
    );
    let (mut seat, first, second) = left?;
    let (other, third, fourth) = right?;
    shared.join(&mut seat, other);
    let (counter, entries) = shared.close(rt, seat);
    Ok(Tally {
        first,
        second,
        third,
        fourth,
        counter,
        entries,
    })
}
