//! How many times after a moment, at an offset and in zones with rules, and how many texts a second.

use cron_schedule::{ParseFault, Schedule};
use job_values::{Moment, Offset, ScheduleKind, Text};
use std::alloc::Global;
use std::io;
use std::rt::Clock;
use std::time::Instant;
use zone_texts::Zone;

/// Texts as users write them most.
const EVERYDAY: [&str; 10] = [
    "0 0 12 * * ?",
    "0 15 10 ? * *",
    "0 0/5 14 * * ?",
    "0 * 14 * * ?",
    "0 30 8 ? * MON-FRI",
    "0 0 0 1 * ?",
    "*/10 * * * * ?",
    "0 0/15 * * * ?",
    "0 0 22-2/2 * * ?",
    "0 0 9-17 ? * 2-6",
];

/// Texts whose next time lies far, or that name a rule on days.
const RARE: [&str; 10] = [
    "0 0 0 29 2 ? *",
    "0 0 0 LW * ?",
    "0 0 0 15W * ?",
    "0 0 0 L-3 * ?",
    "0 0 0 ? * 6#3",
    "0 0 0 ? * 6L",
    "0 0 0 ? * FRI#5",
    "0 0 0 31 12 ?",
    "0 0 0 1 1 ? 1970-2098/2",
    "59 59 23 L 2 ?",
];

/// The zones whose clocks tell the times: one without rules, a northern and a southern one.
const ZONES: [&str; 3] = [
    "CST-8",
    "EST5EDT,M3.2.0,M11.1.0",
    "AEST-10AEDT,M10.1.0,M4.1.0/3",
];

/// Runs the workload so many rounds and prints what it found, with operations per second if timed.
pub fn run(rt: &(impl Print + Clock), alloc: Global, rounds: u32, timed: bool) -> io::Result<()> {
    for zone in &ZONES {
        in_zone(rt, alloc, zone, rounds, timed)?;
    }
    texts(rt, alloc, "everyday", &EVERYDAY, rounds, timed)?;
    texts(rt, alloc, "rare", &RARE, rounds, timed)
}

fn in_zone(
    rt: &(impl Print + Clock),
    alloc: Global,
    text: &str,
    rounds: u32,
    timed: bool,
) -> io::Result<()> {
    if let (Ok(words), Some(offset)) = (Text::copied(alloc, text), Offset::new(0)) {
        if let Ok(zone) = Zone::parse(&words, offset) {
            println!(rt; "zone {text}")?;
            times(rt, alloc, "everyday", &EVERYDAY, &zone, rounds, timed)?;
            times(rt, alloc, "rare", &RARE, &zone, rounds, timed)?;
        }
    }
    Ok(())
}

fn times(
    rt: &(impl Print + Clock),
    alloc: Global,
    name: &str,
    texts: &[&str],
    zone: &Zone,
    rounds: u32,
    timed: bool,
) -> io::Result<()> {
    let mut found: u64 = 0;
    let mut none: u64 = 0;
    let start = Instant::now(rt)?;
    for text in texts {
        if let Ok(schedule) = read(alloc, text) {
            let (some, end) = walk(&schedule, zone, rounds);
            found = found.saturating_add(some);
            none = none.saturating_add(end);
        }
    }
    let nanos = start.elapsed(rt)?.as_nanos();
    println!(rt; "after {name}: {found} times, {none} ends")?;
    report(rt, timed, found, nanos)
}

/// Goes from each due time to the next, and begins again where there is none.
fn walk(schedule: &Schedule, zone: &Zone, rounds: u32) -> (u64, u64) {
    let mut found: u64 = 0;
    let mut none: u64 = 0;
    if let Some(start) = Moment::new(1_717_200_000_000) {
        let mut at = start;
        for _ in 0..rounds {
            match schedule.after(at, zone) {
                Some(next) => {
                    found = found.saturating_add(1);
                    at = next;
                }
                None => {
                    none = none.saturating_add(1);
                    at = start;
                }
            }
        }
    }
    (found, none)
}

fn texts(
    rt: &(impl Print + Clock),
    alloc: Global,
    name: &str,
    texts: &[&str],
    rounds: u32,
    timed: bool,
) -> io::Result<()> {
    let mut good: u64 = 0;
    let start = Instant::now(rt)?;
    for _ in 0..rounds / 10 {
        for text in texts {
            if read(alloc, text).is_ok() {
                good = good.saturating_add(1);
            }
        }
    }
    let nanos = start.elapsed(rt)?.as_nanos();
    println!(rt; "parse {name}: {good} schedules")?;
    report(rt, timed, good, nanos)
}

fn report(rt: &(impl Print + Clock), timed: bool, count: u64, nanos: u128) -> io::Result<()> {
    if timed && nanos > 0 {
        let rate = count as u128 * 1_000_000_000 / nanos;
        println!(rt; "  {rate} a second")?;
    }
    Ok(())
}

fn read(alloc: Global, text: &str) -> Result<Schedule, ParseFault> {
    Schedule::parse(alloc, ScheduleKind::Cron, &Text::copied(alloc, text)?)
}
