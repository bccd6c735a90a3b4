//! Workloads of an executor, one a word: each prints its counts and its events per second. The word `smoke`
//! runs every workload a few times and prints counts alone, the same each time.
#![tactic(auto)]

mod driven;
mod runs;
mod workloads;

use std::{env, io};

fn main(rt: HostRuntime) -> io::Result<()> {
    let alloc = rt.alloc();
    for word in env::args(&rt)?.skip(1) {
        match word.as_str() {
            "smoke" => workloads::run(&rt, alloc, 20, false)?,
            "executor" => workloads::run(&rt, alloc, 20_000, true)?,
            other => println!(rt; "no workload {other}")?,
        }
    }
    Ok(())
}
