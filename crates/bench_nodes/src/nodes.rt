//! Requests for runs on one kept connection to an executor, over a link in memory.

use executor_node::{ExecutorSettings, serve_executor, share_executor};
use job_values::{HandlerName, Moment, NoMemory, Seq, Text};
use outside::{MemoryClock, MemoryLink};
use std::alloc::Global;
use std::io;
use std::rt::Clock;
use std::sync::Wait;
use std::time::{Duration, Instant};

/// The handler of all runs.
const HANDLER: &str = "demo";

/// How many jobs the runs are of.
const JOBS: u32 = 10;

/// What came of the requests of a link.
#[derive(Clone, Copy)]
struct Answered {
    requests: u64,
    bytes: u64,
    time: Duration,
}

/// Serves a connection with so many requests for runs, on a new executor each time, and prints counts,
/// with requests per second if timed.
pub fn run(
    rt: &(impl Print + Clock + Wait),
    alloc: Global,
    runs: u32,
    times: u32,
    timed: bool,
) -> io::Result<()> {
    let bytes = requests(alloc, runs).map_err(out_of_memory)?;
    let mut requests: u64 = 0;
    let mut written: u64 = 0;
    let mut time = Duration::from_nanos(0);
    for _ in 0..times {
        let answered = serve(rt, alloc, bytes.as_slice())?;
        requests = requests.saturating_add(answered.requests);
        written = written.saturating_add(answered.bytes);
        time = time.saturating_add(answered.time);
    }
    println!(rt; "run requests on kept connections: {requests} answered, {written} bytes written")?;
    if timed {
        print_rate(rt, requests, time.as_nanos())?;
    }
    Ok(())
}

/// Prints how many requests there were in a second, where some time passed.
fn print_rate(rt: &impl Print, requests: u64, nanos: u128) -> io::Result<()> {
    if nanos > 0 {
        let rate = requests as u128 * 1_000_000_000 / nanos;
        println!(rt; "  {rate} a second")?;
    }
    Ok(())
}

/// The bytes of so many requests, each for a run of a log of its own.
fn requests(alloc: Global, runs: u32) -> Result<Vec<u8>, NoMemory> {
    let mut bytes = Vec::new(alloc);
    for run in 0..runs {
        let (job, log) = (run % JOBS + 1, u64::from(run) + 1);
        let body = format!(in alloc;
            "{{\"jobId\":{job},\"logId\":{log},\"executorHandler\":\"{HANDLER}\"}}"
        )?;
        let length = body.len();
        let head = format!(in alloc;
            "POST /run HTTP/1.1\r\nHost: e1:9999\r\nContent-Type: application/json;charset=UTF-8\r\nContent-Length: {length}\r\n\r\n"
        )?;
        bytes.extend_from_slice(head.as_bytes())?;
        bytes.extend_from_slice(body.as_bytes())?;
    }
    Ok(bytes)
}

/// An executor of one admin, without a token.
fn settings(alloc: Global) -> Result<ExecutorSettings, NoMemory> {
    let mut admins = Seq::new(alloc);
    admins.push(Text::copied(alloc, "http://a1:9000/")?)?;
    Ok(ExecutorSettings {
        app: Text::copied(alloc, "demo")?,
        address: Text::copied(alloc, "http://e1:9999/")?,
        admins,
        base: Text::copied(alloc, "/xxl-job-admin/api/")?,
        token: Text::copied(alloc, "")?,
    })
}

/// The names of its handlers.
fn handlers(alloc: Global) -> Result<Seq<HandlerName>, NoMemory> {
    let mut names = Seq::new(alloc);
    if let Some(name) = HandlerName::new(Text::copied(alloc, HANDLER)?) {
        names.push(name)?;
    }
    Ok(names)
}

/// Serves a link that gives these bytes.
fn serve(rt: &(impl Clock + Wait), alloc: Global, bytes: &[u8]) -> io::Result<Answered> {
    let settings = settings(alloc).map_err(out_of_memory)?;
    let Some(at) = Moment::new(100_000) else {
        return Err(io::Error::from(io::ErrorKind::InvalidData));
    };
    let mut clock = MemoryClock::new(alloc, at);
    let mut link = MemoryLink::new(alloc, Vec::from_slice(alloc, bytes)?);
    let names = handlers(alloc).map_err(out_of_memory)?;
    let (shared, mut seat) = share_executor(alloc, names, Seq::new(alloc)).map_err(out_of_memory)?;
    let start = Instant::now(rt)?;
    let served = serve_executor(
        rt, alloc, &settings, &shared, &mut seat, &mut clock, &mut link,
    );
    let time = start.elapsed(rt)?;
    Ok(Answered {
        requests: served.requests,
        bytes: link.taken().len() as u64,
        time,
    })
}

fn out_of_memory(_cause: NoMemory) -> io::Error {
    io::Error::from(io::ErrorKind::OutOfMemory)
}
