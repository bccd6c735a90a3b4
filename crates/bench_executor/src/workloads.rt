//! Rounds of an executor at ten and at 9,999 held ids, with log ids in rising order, in falling order and in none.

use crate::driven::{Driven, Setting};
use crate::runs::{Order, order_name};
use job_values::NoMemory;
use std::alloc::Global;
use std::io;
use std::rt::Clock;
use std::sync::Wait;
use std::time::Instant;

/// Runs the workloads so many rounds and prints counts, with events per second if timed.
pub fn run(
    rt: &(impl Print + Clock + Wait),
    alloc: Global,
    rounds: u32,
    timed: bool,
) -> io::Result<()> {
    for order in [Order::Rising, Order::Falling, Order::Scattered] {
        at_held(rt, alloc, order, 10, rounds, timed)?;
        at_held(rt, alloc, order, 9_999, rounds, timed)?;
    }
    Ok(())
}

/// Rounds at so many held ids.
fn at_held(
    rt: &(impl Print + Clock + Wait),
    alloc: Global,
    order: Order,
    held: u32,
    rounds: u32,
    timed: bool,
) -> io::Result<()> {
    let Some(setting) = Setting::new() else {
        return Err(io::Error::from(io::ErrorKind::InvalidData));
    };
    let mut driven = Driven::new(alloc, setting, order).map_err(out_of_memory)?;
    hold(rt, &mut driven, held).map_err(out_of_memory)?;
    let before = driven.taken();
    let start = Instant::now(rt)?;
    play(rt, &mut driven, rounds).map_err(out_of_memory)?;
    let nanos = start.elapsed(rt)?.as_nanos();
    let taken = driven.taken().saturating_sub(before);
    let name = order_name(order);
    println!(rt; "{name} log ids, {held} held: {taken} events")?;
    report(rt, timed, taken, nanos)
}

/// Asks for so many runs of as many jobs, which all wait.
fn hold(rt: &impl Wait, driven: &mut Driven, held: u32) -> Result<(), NoMemory> {
    for _ in 0..held {
        driven.ask(rt)?;
    }
    Ok(())
}

/// Plays so many rounds.
fn play(rt: &impl Wait, driven: &mut Driven, rounds: u32) -> Result<(), NoMemory> {
    for _ in 0..rounds {
        driven.round(rt)?;
    }
    Ok(())
}

fn out_of_memory(_cause: NoMemory) -> io::Error {
    io::Error::from(io::ErrorKind::OutOfMemory)
}

/// Prints how many events there were in a second, where some time passed.
fn report(rt: &impl Print, timed: bool, count: u64, nanos: u128) -> io::Result<()> {
    if timed && nanos > 0 {
        let rate = u128::from(count) * 1_000_000_000 / nanos;
        println!(rt; "  {rate} a second")?;
    }
    Ok(())
}
