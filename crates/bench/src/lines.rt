//! How many lines are read, and written, a second.

use job_events::ClusterEvent;
use script_text::{read_line, write_line};
use std::alloc::Global;
use std::io;
use std::rt::Clock;
use std::time::Instant;

/// Lines as a day of scheduling has them.
const LINES: [&str; 7] = [
    "start 0\n",
    "addgroup \"demo\" manual 2 \"http://e1:9999/\" \"http://e2:9999/\"\n",
    "addjob 1 FIX_RATE \"60\" DO_NOTHING FIRST SERIAL_EXECUTION \"demo\" \"\" 0 0 0\n",
    "startjob 1717200000000 1\n",
    "scan 0 1717200005000\n",
    "step 0\n",
    "turn 0 1717200006000\n",
];

/// A text of many bytes, some of them escaped.
const LONG: &str =
    "addjob 7 NONE \"\" FIRE_ONCE_NOW ROUND COVER_EARLY \"import\" \"{\\\"from\\\":\\\"2024-06-01\\\",\\\"to\\\":\\\"2024-06-30\\\",\\\"path\\\":\\\"C:\\\\\\\\daten\\\\\\\\übersicht\\\",\\0a\\\"retry\\\":true}\" 600 3 4 11 12 13 14\n";

/// Reads and writes each line so many times, and prints how many lines and bytes those were, with
/// lines per second if timed.
pub fn run(rt: &(impl Print + Clock), alloc: Global, rounds: u32, timed: bool) -> io::Result<()> {
    for line in LINES {
        one(rt, alloc, line, rounds, timed)?;
    }
    one(rt, alloc, LONG, rounds, timed)
}

/// The first word of a line.
fn first_word(line: &str) -> &str {
    match line.split_once(' ') {
        Some((word, _)) => word,
        None => line,
    }
}

fn one(
    rt: &(impl Print + Clock),
    alloc: Global,
    line: &str,
    rounds: u32,
    timed: bool,
) -> io::Result<()> {
    let bytes = line.as_bytes();
    if bytes.len() > 262_145 {
        return Ok(());
    }
    let mut read: u64 = 0;
    let start = Instant::now(rt)?;
    for _ in 0..rounds {
        if read_line(alloc, bytes).is_ok() {
            read = read.saturating_add(1);
        }
    }
    let nanos = start.elapsed(rt)?.as_nanos();
    println!(rt; "{}: {} bytes, read {read}", first_word(line), bytes.len())?;
    report(rt, timed, read, nanos)?;
    match read_line(alloc, bytes) {
        Ok(event) => writes(rt, alloc, &event, bytes, rounds, timed),
        Err(_) => Ok(()),
    }
}

fn writes(
    rt: &(impl Print + Clock),
    alloc: Global,
    event: &ClusterEvent,
    bytes: &[u8],
    rounds: u32,
    timed: bool,
) -> io::Result<()> {
    let mut written: u64 = 0;
    let start = Instant::now(rt)?;
    for _ in 0..rounds {
        if let Ok(line) = write_line(alloc, event) {
            if line.len() == bytes.len() {
                written = written.saturating_add(1);
            }
        }
    }
    let nanos = start.elapsed(rt)?.as_nanos();
    println!(rt; "  written {written}")?;
    report(rt, timed, written, nanos)
}

fn report(rt: &(impl Print + Clock), timed: bool, count: u64, nanos: u128) -> io::Result<()> {
    if timed && nanos > 0 {
        let rate = u128::from(count) * 1_000_000_000 / nanos;
        println!(rt; "  {rate} lines a second")?;
    }
    Ok(())
}
