//! Workloads of the cores and of the replay, one a word: each prints its counts, its sizes and its
//! operations per second. The word `smoke` runs every workload a few times and prints counts alone, the
//! same each time.
#![tactic(auto)]

mod replays;

use std::alloc::Global;
use std::io::Print;
use std::time::Clock;
use std::{env, io};

fn smoke<R: Print + Clock>(rt: &R, alloc: Global) -> io::Result<()> {
    replays::run(rt, alloc, 20, false)
}

fn main(rt: HostRuntime) -> io::Result<()> {
    let alloc = rt.alloc();
    for word in env::args(&rt)?.skip(1) {
        match word.as_str() {
            "smoke" => smoke(&rt, alloc)?,
            "replays" => replays::run(&rt, alloc, 100_000, true)?,
            other => println!(rt; "no workload {other}")?,
        }
    }
    Ok(())
}
