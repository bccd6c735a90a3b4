//! Workloads of the parts, one a word: each prints its counts, its sizes and its operations per second. The word
//! `smoke` runs every workload a few times and prints counts alone, the same each time.
#![tactic(auto)]

mod acts;
mod cron;
mod lines;
mod messages;
mod parts;
mod requests;

use std::alloc::Global;
use std::io::Print;
use std::sync::Wait;
use std::thread::Threads;
use std::time::Clock;
use std::{env, io};

fn smoke<R: Print + Clock + Threads + Wait + Sync>(rt: &R, alloc: Global) -> io::Result<()> {
    cron::run(rt, alloc, 20, false)?;
    parts::run(rt, alloc, 2_000, false)?;
    messages::run(rt, alloc, 2, false)?;
    requests::run(rt, alloc, 20, false)?;
    acts::run(rt, alloc, 200, false)?;
    lines::run(rt, alloc, 2, false)
}

fn main(rt: HostRuntime) -> io::Result<()> {
    let alloc = rt.alloc();
    for word in env::args(&rt)?.skip(1) {
        match word.as_str() {
            "smoke" => smoke(&rt, alloc)?,
            "cron" => cron::run(&rt, alloc, 200_000, true)?,
            "parts" => parts::run(&rt, alloc, 2_000_000, true)?,
            "messages" => messages::run(&rt, alloc, 1_000, true)?,
            "requests" => requests::run(&rt, alloc, 20_000, true)?,
            "lock" => acts::run(&rt, alloc, 200_000, true)?,
            "lines" => lines::run(&rt, alloc, 200_000, true)?,
            other => println!(rt; "no workload {other}")?,
        }
    }
    Ok(())
}
