//! Plays the script of standard input on a centre that stops and opens again over what was saved: once
//! before its first event and behind each of them, and with each of its saves failing in turn. It tells
//! how many of these went on as a cluster does that stays, or stops there and goes on over its own rows.
#![tactic(auto)]

mod fault;
mod plays;
mod same;

use cluster_history::Settings;
use fault::Fault;
use job_events::ClusterEvent;
use job_values::Offset;
use plays::{Plays, Then, Told};
use script_text::read_line;
use std::alloc::Global;
use std::io;

/// The event of a line.
fn event(alloc: Global, line: &str) -> Result<ClusterEvent, Fault> {
    let line = format!(in alloc; "{line}\n")?;
    read_line(alloc, line.as_bytes()).map_err(|_| Fault::BadLine)
}

fn settings() -> Result<Settings, Fault> {
    match Offset::new(0) {
        Some(offset) => Ok(Settings {
            offset,
            fast: 8,
            slow: 4,
        }),
        None => Err(Fault::BadLine),
    }
}

fn tell(rt: HostRuntime, what: &str, told: Told) -> io::Result<()> {
    let (played, other) = (told.played, told.other);
    println!(&rt; "{what}: {played} played, {other} of them otherwise")
}

fn main(rt: HostRuntime) -> io::Result<()> {
    let alloc = rt.alloc();
    let mut events = Vec::new(alloc);
    for line in rt.lines(alloc) {
        events.push(event(alloc, line?.as_str())?)?;
    }
    let plays = Plays {
        alloc,
        settings: settings()?,
        events: events.as_slice(),
    };
    let (count, accepted) = (events.len(), plays.accepted()?);
    println!(&rt; "{count} events, {accepted} accepted")?;
    tell(rt, "stops before and behind each event", plays.stopped()?)?;
    tell(
        rt,
        "saves that fail and are tried again",
        plays.failing(Then::Goes)?,
    )?;
    tell(rt, "saves that fail at a stop", plays.failing(Then::Stops)?)?;
    Ok(())
}
