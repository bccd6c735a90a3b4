//! Workloads of an executor's node, one a word: each prints its counts and its operations per second.
//! The word `smoke` runs every workload a few times and prints counts alone, the same each time.
#![tactic(auto)]

mod nodes;

use std::{env, io};

fn main(rt: HostRuntime) -> io::Result<()> {
    let alloc = rt.alloc();
    for word in env::args(&rt)?.skip(1) {
        match word.as_str() {
            "smoke" => nodes::run(&rt, alloc, 20, 2, false)?,
            "node" => nodes::run(&rt, alloc, 5_000, 20, true)?,
            other => println!(rt; "no workload {other}")?,
        }
    }
    Ok(())
}
