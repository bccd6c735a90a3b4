//! Tickets through the ring, logs through the pools, and choices by each route.

use job_values::{
    Address, Addresses, Choice, JobId, LogId, Moment, NoMemory, PoolAnswer, PoolKind, Route, Seq,
    ShardNo, Text,
};
use route_strategies::{RouteAsk, Routes};
use std::alloc::Global;
use std::io;
use std::rt::Clock;
use std::time::Instant;
use time_ring::{Ticket, TimeRing};
use trigger_pool::Pools;

const ROUTES: [Route; 10] = [
    Route::First,
    Route::Last,
    Route::Round,
    Route::Random,
    Route::ConsistentHash,
    Route::LeastFrequentlyUsed,
    Route::LeastRecentlyUsed,
    Route::Failover,
    Route::Busyover,
    Route::ShardingBroadcast,
];

/// Runs the workloads so many rounds and prints counts, with operations per second if timed.
pub fn run(rt: &(impl Print + Clock), alloc: Global, rounds: u32, timed: bool) -> io::Result<()> {
    tickets(rt, alloc, rounds, timed)?;
    logs(rt, alloc, rounds, timed)?;
    for route in ROUTES {
        choices(rt, alloc, route, 3, rounds / 10, timed)?;
        choices(rt, alloc, route, 256, rounds / 1_000 + 2, timed)?;
    }
    Ok(())
}

fn tickets(rt: &(impl Print + Clock), alloc: Global, rounds: u32, timed: bool) -> io::Result<()> {
    let start = Instant::now(rt)?;
    let taken = turned(alloc, rounds).map_err(out_of_memory)?;
    let nanos = start.elapsed(rt)?.as_nanos();
    println!(rt; "ring: {taken} tickets put and taken")?;
    report(rt, timed, taken, nanos)
}

/// Puts tickets, twenty a second, and turns each second; answers how many a turn took.
fn turned(alloc: Global, rounds: u32) -> Result<u64, NoMemory> {
    let mut ring = TimeRing::new(alloc)?;
    let mut taken: u64 = 0;
    for round in 0..rounds {
        let ms = 1_717_200_000_000 + round as u64 * 50;
        if let (Some(job), Some(due)) = (JobId::new(round % 1_000 + 1), Moment::new(ms)) {
            ring.reserve(due, 1)?;
            ring.put(Ticket {
                job,
                edition: 1,
                due,
            });
        }
        if round % 20 == 19 {
            let turn = ring.take(ms / 1_000);
            taken = taken
                .saturating_add(turn.present.len() as u64)
                .saturating_add(turn.past.len() as u64);
        }
    }
    Ok(taken)
}

fn logs(rt: &(impl Print + Clock), alloc: Global, rounds: u32, timed: bool) -> io::Result<()> {
    let start = Instant::now(rt)?;
    let (fast, slow) = queued(alloc, rounds).map_err(out_of_memory)?;
    let nanos = start.elapsed(rt)?.as_nanos();
    println!(rt; "pools: {fast} fast and {slow} slow logs added, taken and reported")?;
    report(rt, timed, fast.saturating_add(slow), nanos)
}

/// Adds logs of fifty jobs, takes each again, and reports a sending, late for every seventh job.
fn queued(alloc: Global, rounds: u32) -> Result<(u64, u64), NoMemory> {
    let mut pools = Pools::new(alloc);
    let mut fast: u64 = 0;
    let mut slow: u64 = 0;
    for round in 0..rounds {
        let number = round % 50 + 1;
        let start = 1_717_200_000_000 + round as u64;
        let end = if number % 7 == 0 {
            start + 501
        } else {
            start + 1
        };
        if let (Some(log), Some(job), Some(start), Some(end)) = (
            LogId::new(round as u64 + 1),
            JobId::new(number),
            Moment::new(start),
            Moment::new(end),
        ) {
            pools.reserve(1)?;
            match pools.add(log, job) {
                PoolAnswer::Fast => {
                    let _ = pools.take(PoolKind::Fast);
                    fast = fast.saturating_add(1);
                }
                PoolAnswer::Slow => {
                    let _ = pools.take(PoolKind::Slow);
                    slow = slow.saturating_add(1);
                }
                PoolAnswer::Full => {}
            }
            pools.report(job, start, end);
        }
    }
    Ok((fast, slow))
}

fn choices(
    rt: &(impl Print + Clock),
    alloc: Global,
    route: Route,
    length: u32,
    rounds: u32,
    timed: bool,
) -> io::Result<()> {
    let list = list_of(alloc, length).map_err(out_of_memory)?;
    let start = Instant::now(rt)?;
    let made = chosen(alloc, route, &list, rounds).map_err(out_of_memory)?;
    let nanos = start.elapsed(rt)?.as_nanos();
    let name = route.text();
    println!(rt; "{name} at {length}: {made} choices")?;
    report(rt, timed, made, nanos)
}

fn list_of(alloc: Global, length: u32) -> Result<Addresses, NoMemory> {
    let mut items = Seq::new(alloc);
    for number in 0..length {
        let text = format!(in alloc; "http://executor-{number}:9999/").map_err(|_| NoMemory)?;
        if let Some(address) = Address::new(Text::of(text)) {
            items.push(address)?;
        }
    }
    if items.len() > 256 {
        return Err(NoMemory);
    }
    Ok(Addresses::of(items))
}

/// Chooses for a hundred jobs in turn, and keeps the picks of the routes that look at them.
fn chosen(alloc: Global, route: Route, list: &Addresses, rounds: u32) -> Result<u64, NoMemory> {
    let mut routes = Routes::new(alloc);
    let mut made: u64 = 0;
    for round in 0..rounds {
        if let (Some(job), Some(index)) = (JobId::new(round % 100 + 1), ShardNo::new(round % 8)) {
            let word = round as u64;
            let ask = RouteAsk {
                route,
                job,
                list,
                index,
                word,
            };
            if let Choice::To(address) = routes.choose(&ask)? {
                picked(alloc, &mut routes, route, job, &address)?;
            }
            made = made.saturating_add(1);
        }
    }
    Ok(made)
}

fn picked(
    alloc: Global,
    routes: &mut Routes,
    route: Route,
    job: JobId,
    address: &Address,
) -> Result<(), NoMemory> {
    if let Route::Round | Route::LeastFrequentlyUsed | Route::LeastRecentlyUsed = route {
        let text = address.get().copy(alloc)?;
        routes.reserve(job)?;
        if routes.number_of_picks(job) < u64::MAX {
            routes.pick(job, text);
        }
    }
    Ok(())
}

fn report(rt: &(impl Print + Clock), timed: bool, count: u64, nanos: u128) -> io::Result<()> {
    if timed && nanos > 0 {
        let rate = count as u128 * 1_000_000_000 / nanos;
        println!(rt; "  {rate} a second")?;
    }
    Ok(())
}

fn out_of_memory(_cause: NoMemory) -> io::Error {
    io::Error::from(io::ErrorKind::OutOfMemory)
}
