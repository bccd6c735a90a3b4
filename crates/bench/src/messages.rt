//! How many results of callbacks are read, and written, a second.

use api_messages::{read_callbacks, write_callbacks};
use std::alloc::Global;
use std::io;
use std::rt::Clock;
use std::time::Instant;

/// How many results a body has.
const ITEMS: usize = 1000;

/// Reads a body of 1,000 results so many times and writes it so often, and prints what it found,
/// with operations per second if timed.
pub fn run(rt: &(impl Print + Clock), alloc: Global, rounds: u32, timed: bool) -> io::Result<()> {
    let body = match body(alloc) {
        Ok(body) => body,
        Err(e) => return Err(io::Error::from(e)),
    };
    let mut read: u64 = 0;
    let start = Instant::now(rt)?;
    for _ in 0..rounds {
        if let Ok(items) = read_callbacks(alloc, body.as_bytes()) {
            read = read.saturating_add(items.len() as u64);
        }
    }
    let nanos = start.elapsed(rt)?.as_nanos();
    println!(rt; "read: {read} results of bodies of {} bytes", body.len())?;
    report(rt, timed, read, nanos)?;
    let mut written: u64 = 0;
    let start = Instant::now(rt)?;
    if let Ok(items) = read_callbacks(alloc, body.as_bytes()) {
        for _ in 0..rounds {
            if let Ok(text) = write_callbacks(alloc, &items) {
                if text.as_slice() == body.as_bytes() {
                    written = written.saturating_add(items.len() as u64);
                }
            }
        }
    }
    let nanos = start.elapsed(rt)?.as_nanos();
    println!(rt; "written: {written} results")?;
    report(rt, timed, written, nanos)
}

/// A body of 1,000 results.
fn body(alloc: Global) -> Result<String, std::alloc::AllocError> {
    let mut body = String::from_str(alloc, "[")?;
    for i in 0..ITEMS {
        if i > 0 {
            body.push_str(",")?;
        }
        let item = format!(in alloc;
            "{{\"handleCode\":200,\"handleMsg\":\"done in {i} ms\",\"logDateTim\":1717200000000,\"logId\":{}}}",
            i as u64 + 1
        )?;
        body.push_str(item.as_str())?;
    }
    body.push_str("]")?;
    Ok(body)
}

fn report(rt: &(impl Print + Clock), timed: bool, count: u64, nanos: u128) -> io::Result<()> {
    if timed && nanos > 0 {
        let rate = count as u128 * 1_000_000_000 / nanos;
        println!(rt; "  {rate} a second")?;
    }
    Ok(())
}
