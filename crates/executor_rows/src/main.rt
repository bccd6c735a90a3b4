//! Plays the rows of standard input, each on an executor behind its lock, over links, dialers and a file in
//! memory, and tells which of them gave anything else than they say. An empty line stands between two rows.
//! A row that begins with `# NAME` is one connection (see `connection`), a row that begins with `* NAME` a
//! list of calls (see `story`).
#![tactic(auto)]

mod calls;
mod connection;
mod handlers;
mod outcome;
mod setting;
mod story;
mod wire;

use std::alloc::Global;
use std::io::{self, Read};
use std::sync::Wait;

/// Whether a row gave what it says.
fn is_played<R: Wait>(rt: &R, alloc: Global, row: &str) -> io::Result<bool> {
    let played = if row.starts_with("* ") {
        story::is_played(rt, alloc, row)
    } else {
        connection::is_played(rt, alloc, row)
    };
    played.map_err(|_| io::Error::from(io::ErrorKind::OutOfMemory))
}

/// The name of a row.
fn name(row: &str) -> &str {
    match row.split_once('\n') {
        Some((name, _rest)) => name,
        None => row,
    }
}

fn main(rt: HostRuntime) -> io::Result<()> {
    let alloc = rt.alloc();
    let mut rows = String::new(alloc);
    rt.stdin().read_to_string(&mut rows)?;
    let mut played: u64 = 0;
    let mut wrong: u64 = 0;
    for row in rows.split("\n\n") {
        played = played.saturating_add(1);
        if !is_played(&rt, alloc, row)? {
            wrong = wrong.saturating_add(1);
            println!(&rt; "differs: {}", name(row))?;
        }
    }
    println!(&rt; "{played} rows, {wrong} wrong")
}
