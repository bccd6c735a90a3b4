//! A row of calls. Behind its name stand what the executor begins with: lines `token TEXT`, and `kept JSON` for
//! each line of its file. Each executor of the row has a line `start`, its calls, and the line
//! `stop | N entries, M held`; the next one begins with the file that it left. A call stands with what it
//! gives behind ` | ` (see `calls`); a line `clock N` sets the moment from there on.
ghost use Rattle.std.specs.Prelude.{◌≡◌, OnOk};
ghost use Rattle.callback_spool.specs.Different.{HaveDifferentLogs};
ghost use Rattle.turn_lock.specs.Seats.{IsSameSeat};

use crate::calls::{World, give};
use crate::handlers::names;
use crate::setting::close;
use executor_node::{ExecutorMachine, share_executor};
use job_values::{CallbackItem, NoMemory, Seq};
use spool_text::{SpoolFault, read_spool};
use std::alloc::Global;
use std::sync::Wait;
use turn_lock::{Seat, Shared};

/// Whether a line is `clock N`, or a call that gave what it says.
fn is_so<R: Wait>(
    rt: &R,
    alloc: Global,
    shared: &Shared<ExecutorMachine>,
    seat: &mut Seat<ExecutorMachine>,
    world: &mut World,
    line: &str,
) -> Result<bool, NoMemory>
    requires { seat.old.shared ≡ shared.now }
    ensures { OnOk result (IsSameSeat seat.old seat.new) }
{
    match line.split_once(" | ") {
        Some((call, wanted)) => {
            let given = give(rt, alloc, shared, seat, world, call)?;
            Ok(given.as_str() == wanted)
        }
        None => Ok(world.is_moved(line)),
    }
}

/// Whether each line of these is so.
#[tactic(auto, using(crate::proofs::Same::same_none, crate::proofs::Same::same_then))]
fn are_so<R: Wait>(
    rt: &R,
    alloc: Global,
    shared: &Shared<ExecutorMachine>,
    seat: &mut Seat<ExecutorMachine>,
    world: &mut World,
    lines: &str,
) -> Result<bool, NoMemory>
    requires { seat.old.shared ≡ shared.now }
    ensures { OnOk result (IsSameSeat seat.old seat.new) }
{
    for line in lines.lines().skip(1) {
        if !is_so(rt, alloc, shared, seat, world, line)? {
            return Ok(false);
        }
    }
    Ok(true)
}

/// Whether the calls of an executor with these kept results gave what they say, and so did its stop.
fn is_lived<R: Wait>(
    rt: &R,
    alloc: Global,
    world: &mut World,
    kept: Seq<CallbackItem>,
    calls: &str,
    stopped: &str,
) -> Result<bool, NoMemory>
    requires { HaveDifferentLogs kept }
{
    let (shared, mut seat) = share_executor(alloc, names(alloc)?, kept)?;
    if !are_so(rt, alloc, &shared, &mut seat, world, calls)? {
        return Ok(false);
    }
    let (entries, held) = close(rt, &shared, seat);
    let given = format!(in alloc; "{entries} entries, {held} held")?;
    Ok(stopped.trim_end() == given.as_str())
}

/// Whether a life in a row, behind its line `start`, was as it says.
fn is_life<R: Wait>(
    rt: &R,
    alloc: Global,
    world: &mut World,
    life: &str,
) -> Result<bool, NoMemory> {
    let Some((calls, stopped)) = life.split_once("\nstop | ") else {
        return Ok(false);
    };
    match read_spool(alloc, world.file()) {
        Ok(kept) => is_lived(rt, alloc, world, kept, calls, stopped),
        Err(SpoolFault::Bad { .. }) => Ok(false),
        Err(SpoolFault::NoMemory) => Err(NoMemory),
    }
}

/// Whether a row gave what it says.
pub fn is_played<R: Wait>(rt: &R, alloc: Global, row: &str) -> Result<bool, NoMemory> {
    let mut world = World::new(alloc);
    let (settings, lives) = row.split_once("\nstart").unwrap_or((row, ""));
    for line in settings.lines().skip(1) {
        if !world.is_set(line)? {
            return Ok(false);
        }
    }
    for life in lives.split("\nstart") {
        if !is_life(rt, alloc, &mut world, life)? {
            return Ok(false);
        }
    }
    Ok(true)
}
