//! Whole scripts played over memory: starts of one job, and scans with their steps and turns.

use outside::{BytesSink, BytesSource};
use replay_program::replay_main;
use std::alloc::{AllocError, Global};
use std::io;
use std::rt::Clock;
use std::time::Instant;

/// What each script begins with: an admin, a group, and a job with ten seconds between due times.
const JOB: &str =
    "start 0\naddgroup \"demo\" manual 1 \"http://e1:9999/\"\naddjob 1 FIX_RATE \"10\" DO_NOTHING FIRST SERIAL_EXECUTION \"demo\" \"\" 0 0 0\nstartjob 100000 1\n";

/// Plays a script of so many starts, and one of so many scans, steps and turns, and prints how many
/// lines and bytes those were, with lines per second if timed.
pub fn run(rt: &(impl Print + Clock), alloc: Global, rounds: u32, timed: bool) -> io::Result<()> {
    let starts = starts(alloc, rounds)?;
    play(rt, alloc, "startjob", starts.as_str(), rounds, timed)?;
    let scans = scans(alloc, rounds)?;
    let lines = u64::from(rounds) * 3;
    play(
        rt,
        alloc,
        "scan, step, turn",
        scans.as_str(),
        lines.min(4_000_000_000) as u32,
        timed,
    )
}

fn starts(alloc: Global, rounds: u32) -> Result<String, AllocError> {
    let mut script = JOB.to_string(alloc)?;
    for _ in 0..rounds {
        script.push_str("startjob 100000 1\n")?;
    }
    Ok(script)
}

fn scans(alloc: Global, rounds: u32) -> Result<String, AllocError> {
    let mut script = JOB.to_string(alloc)?;
    for round in 0..rounds {
        let due = 115_000 + 10_000 * u64::from(round);
        let scan = due - 5_000;
        let lines = format!(in alloc; "scan 0 {scan}\nstep 0\nturn 0 {due}\n")?;
        script.push_str(lines.as_str())?;
    }
    Ok(script)
}

fn play(
    rt: &(impl Print + Clock),
    alloc: Global,
    name: &str,
    script: &str,
    lines: u32,
    timed: bool,
) -> io::Result<()> {
    let mut words = Vec::new(alloc);
    words.push("run".to_string(alloc)?)?;
    let mut source = BytesSource::new(script.as_bytes());
    let mut sink = BytesSink::new(alloc);
    let start = Instant::now(rt)?;
    let status = replay_main(alloc, words.as_slice(), &mut source, &mut sink);
    let nanos = start.elapsed(rt)?.as_nanos();
    let written = sink.taken().len();
    println!(rt; "{name}: {lines} lines, status {status}, {written} bytes written")?;
    if timed && nanos > 0 {
        let rate = u128::from(lines) * 1_000_000_000 / nanos;
        println!(rt; "  {rate} lines a second")?;
    }
    Ok(())
}
