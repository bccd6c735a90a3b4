//! `xxl_replay`: plays the script that standard input gives, and writes the replies and the report to
//! standard output; or writes the next times of a schedule.
#![tactic(auto)]

use outside_real::{StreamSink, StreamSource};
use replay_program::replay_main;
use std::process::ExitCode;
use std::{env, io};

/// The words after the program's name; none where the system does not give them.
fn words(rt: &HostRuntime) -> io::Result<Vec<String>> {
    let mut words = Vec::new(rt.alloc());
    for word in env::args(rt)?.skip(1) {
        words.push(word)?;
    }
    Ok(words)
}

fn main(rt: HostRuntime) -> ExitCode {
    let words = match words(&rt) {
        Ok(words) => words,
        Err(_) => Vec::new(rt.alloc()),
    };
    let mut source = StreamSource::new(rt.stdin());
    let mut sink = StreamSink::new(rt.stdout());
    let status = replay_main(rt.alloc(), words.as_slice(), &mut source, &mut sink);
    ExitCode::from(status)
}
