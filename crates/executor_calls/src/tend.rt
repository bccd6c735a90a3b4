//! The calls that look after an executor: runs that last too long, saved results, lines of old logs.
ghost use Rattle.std.specs.Prelude.{◌≡◌, [], ◌∷◌, IfOk, OnErr};
ghost use Rattle.turn_lock.specs.Gains.{Gains};
ghost use Rattle.executor_node.specs.Standing.{IsLegalList};
ghost use Rattle.executor_calls.specs.Gaining.{Gained, GainedAt};
ghost use Rattle.executor_calls.specs.Tending.{ExpireGave, trim_moment, TrimGave, TendGave};

use executor_node::ExecutorMachine;
use executor_node::act::act;
use job_events::{ExecutorEvent, ExecutorReply};
use job_values::{Moment, NoMemory};
use outside::Clock;
use std::sync::Wait;
use turn_lock::{Seat, Shared};

/// How long the lines of a log are kept, in milliseconds: 30 days.
pub const LINES_KEPT: u64 = 2_592_000_000;

/// What became of saved results and of the lines of old logs.
#[derive(Clone, Copy, PartialEq, Eq)]
pub struct TendDone {
    /// How many saved results wait again.
    pub reloaded: u64,
    /// The lines of how many logs were dropped.
    pub trimmed: u64,
}

/// One Expire at a moment.
fn expire<R: Wait>(
    rt: &R,
    shared: &Shared<ExecutorMachine>,
    seat: &mut Seat<ExecutorMachine>,
    at: Moment,
) -> Result<u64, NoMemory>
    requires { seat.old.shared ≡ shared.now }
    ensures { Gained seat.old seat.new (λ es. ExpireGave at es result) }
{
    match act(rt, shared, seat, &ExecutorEvent::Expire(at))? {
        ExecutorReply::Expired(count) => Ok(count),
        _ => unreachable!(),
    }
}

/// Gives the runs that last too long their result, and tells how many there were. It may wait.
pub fn expire_once<R: Wait, C: Clock>(
    rt: &R,
    shared: &Shared<ExecutorMachine>,
    seat: &mut Seat<ExecutorMachine>,
    clock: &mut C,
) -> Result<u64, NoMemory>
    requires { seat.old.shared ≡ shared.now }
    ensures { GainedAt (C.readings clock.old) (C.readings clock.new) seat.old seat.new (λ at es. ExpireGave at es result) }
{
    let at = clock.now();
    expire(rt, shared, seat, at)
}

/// The moment before which the lines of logs are dropped, if there is one.
fn trim_moment(at: Moment) -> Option<Moment>
    ensures { result ≡ trim_moment at }
{
    if at.get() < LINES_KEPT {
        return None;
    }
    Moment::new(at.get() - LINES_KEPT)
}

/// One Trim, where there is a moment for it.
fn trim<R: Wait>(
    rt: &R,
    shared: &Shared<ExecutorMachine>,
    seat: &mut Seat<ExecutorMachine>,
    before: Option<Moment>,
    reloaded: u64,
) -> Result<TendDone, NoMemory>
    requires { seat.old.shared ≡ shared.now }
    ensures { Gained seat.old seat.new (λ es. TrimGave before reloaded es result) }
{
    let Some(before) = before else {
        return Ok(TendDone {
            reloaded,
            trimmed: 0,
        });
    };
    match act(rt, shared, seat, &ExecutorEvent::Trim(before))? {
        ExecutorReply::Trimmed(trimmed) => Ok(TendDone { reloaded, trimmed }),
        _ => unreachable!(),
    }
}

/// One Reload, or none for want of memory.
fn reload<R: Wait>(
    rt: &R,
    shared: &Shared<ExecutorMachine>,
    seat: &mut Seat<ExecutorMachine>,
) -> Result<u64, NoMemory>
    requires { seat.old.shared ≡ shared.now }
    ensures done { IfOk result (λ n. Gains IsLegalList seat.old ((ExecutorEvent.Reload, ExecutorReply.Reloaded n) ∷ []) seat.new) }
    ensures refused { OnErr result (Gains IsLegalList seat.old [] seat.new) }
{
    match act(rt, shared, seat, &ExecutorEvent::Reload)? {
        ExecutorReply::Reloaded(count) => Ok(count),
        _ => unreachable!(),
    }
}

/// A Reload and a Trim at a moment.
fn tend<R: Wait>(
    rt: &R,
    shared: &Shared<ExecutorMachine>,
    seat: &mut Seat<ExecutorMachine>,
    at: Moment,
) -> Result<TendDone, NoMemory>
    requires { seat.old.shared ≡ shared.now }
    ensures { Gained seat.old seat.new (λ es. TendGave at es result) }
{
    let reloaded = reload(rt, shared, seat)?;
    trim(rt, shared, seat, trim_moment(at), reloaded)
}

/// Lets the saved results wait again, and drops the lines of logs of more than 30 days ago. It may wait.
pub fn tend_once<R: Wait, C: Clock>(
    rt: &R,
    shared: &Shared<ExecutorMachine>,
    seat: &mut Seat<ExecutorMachine>,
    clock: &mut C,
) -> Result<TendDone, NoMemory>
    requires { seat.old.shared ≡ shared.now }
    ensures { GainedAt (C.readings clock.old) (C.readings clock.new) seat.old seat.new (λ at es. TendGave at es result) }
{
    let at = clock.now();
    tend(rt, shared, seat, at)
}
