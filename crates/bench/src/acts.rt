//! Acts on a counter behind the turn lock, by one, two and four threads, and the same steps behind
//! a mutex.
ghost use Rattle.std.specs.Prelude.{◌≡◌, ◌<◌};

use job_values::NoMemory;
use shared_counter::{Add, Counter};
use std::alloc::{AllocError, Global};
use std::io;
use std::rt::Clock;
use std::sync::{Mutex, Wait};
use std::thread::{Threads, join};
use std::time::Instant;
use turn_lock::{Machine, Seat, Shared};

/// Half of the parts of all seats.
const HALF: u64 = 1 << 62;

/// Runs the workloads, each thread so many rounds, and prints counts, with operations per second
/// if timed.
pub fn run<R: Print + Clock + Threads + Wait + Sync>(
    rt: &R,
    alloc: Global,
    rounds: u32,
    timed: bool,
) -> io::Result<()> {
    for threads in [1, 2, 4] {
        let start = Instant::now(rt)?;
        let done = lock_by(rt, alloc, threads, rounds).map_err(out_of_memory)?;
        let nanos = start.elapsed(rt)?.as_nanos();
        println!(rt; "turn lock, {threads} threads: {done} acts")?;
        report(rt, timed, done, nanos)?;
        let start = Instant::now(rt)?;
        let done = mutex_by(rt, threads, rounds);
        let nanos = start.elapsed(rt)?.as_nanos();
        println!(rt; "mutex, {threads} threads: {done} steps")?;
        report(rt, timed, done, nanos)?;
    }
    Ok(())
}

fn out_of_memory(_error: NoMemory) -> io::Error {
    AllocError.into()
}

fn report(rt: &impl Print, timed: bool, count: u64, nanos: u128) -> io::Result<()> {
    if timed && nanos > 0 {
        let rate = count as u128 * 1_000_000_000 / nanos;
        println!(rt; "  {rate} a second")?;
    }
    Ok(())
}

fn new_counter() -> Counter {
    Counter {
        value: 0,
        limit: u64::MAX,
    }
}

fn lock_by<R: Threads + Wait + Sync>(
    rt: &R,
    alloc: Global,
    threads: u32,
    rounds: u32,
) -> Result<u64, NoMemory> {
    let (shared, seat) = Shared::new(alloc, new_counter())?;
    match threads {
        1 => Ok(lock_alone(rt, &shared, seat, rounds)),
        2 => lock_in_two(rt, &shared, seat, rounds),
        _ => lock_in_four(rt, &shared, seat, rounds),
    }
}

fn lock_alone<R: Wait>(
    rt: &R,
    shared: &Shared<Counter>,
    mut seat: Seat<Counter>,
    rounds: u32,
) -> u64
    requires { seat.shared ≡ shared.now }
{
    let mut done: u64 = 0;
    for _round in 0..rounds {
        if shared.act(rt, &mut seat, &Add { by: 1 }).is_ok() {
            done = done.saturating_add(1);
        }
    }
    done
}

fn lock_in_two<R: Threads + Wait + Sync>(
    rt: &R,
    shared: &Shared<Counter>,
    mut seat: Seat<Counter>,
    rounds: u32,
) -> Result<u64, NoMemory>
    requires here { seat.shared ≡ shared.now }
    requires enough { 1 < seat.parts }
{
    let other = shared.split(&mut seat, 1)?;
    let (left, right) = join(
        rt,
        move || -> u64
            requires { seat.shared ≡ shared.now }
        { lock_alone(rt, shared, seat, rounds) },
        move || -> u64
            requires { other.shared ≡ shared.now }
        { lock_alone(rt, shared, other, rounds) },
    );
    Ok(left.saturating_add(right))
}

fn lock_in_four<R: Threads + Wait + Sync>(
    rt: &R,
    shared: &Shared<Counter>,
    mut seat: Seat<Counter>,
    rounds: u32,
) -> Result<u64, NoMemory>
    requires here { seat.shared ≡ shared.now }
    requires all { seat.parts ≡ 9223372036854775808 }
{
    let other = shared.split(&mut seat, HALF)?;
    let (left, right) = join(
        rt,
        move || -> Result<u64, NoMemory>
            requires { (seat.shared ≡ shared.now) × (1 < seat.parts) }
        { lock_in_two(rt, shared, seat, rounds) },
        move || -> Result<u64, NoMemory>
            requires { (other.shared ≡ shared.now) × (1 < other.parts) }
        { lock_in_two(rt, shared, other, rounds) },
    );
    Ok(left?.saturating_add(right?))
}

fn mutex_by<R: Threads + Wait + Sync>(rt: &R, threads: u32, rounds: u32) -> u64 {
    let lock = Mutex::new(new_counter());
    match threads {
        1 => mutex_alone(rt, &lock, rounds),
        2 => mutex_in_two(rt, &lock, rounds),
        _ => mutex_in_four(rt, &lock, rounds),
    }
}

fn mutex_alone<R: Wait>(rt: &R, lock: &Mutex<Counter>, rounds: u32) -> u64 {
    let mut done: u64 = 0;
    for _round in 0..rounds {
        if lock.lock(rt).step(&Add { by: 1 }).is_ok() {
            done = done.saturating_add(1);
        }
    }
    done
}

fn mutex_in_two<R: Threads + Wait + Sync>(rt: &R, lock: &Mutex<Counter>, rounds: u32) -> u64 {
    let (left, right) = join(
        rt,
        || mutex_alone(rt, lock, rounds),
        || mutex_alone(rt, lock, rounds),
    );
    left.saturating_add(right)
}

fn mutex_in_four<R: Threads + Wait + Sync>(rt: &R, lock: &Mutex<Counter>, rounds: u32) -> u64 {
    let (left, right) = join(
        rt,
        || mutex_in_two(rt, lock, rounds),
        || mutex_in_two(rt, lock, rounds),
    );
    left.saturating_add(right)
}
