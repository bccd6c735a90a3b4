//! How many requests are read a second, from a link that gives them whole and from one that gives
//! byte after byte.

ghost use Rattle.std.specs.Prelude.{◌<◌};

use http_ends::{HttpBuffer, read_request};
use outside::MemoryLink;
use std::alloc::{AllocError, Global};
use std::io;
use std::rt::Clock;
use std::time::Instant;

/// A call of a job as an admin sends it.
const REQUEST: &[u8] =
    b"POST /run HTTP/1.1\r\nXXL-JOB-ACCESS-TOKEN: default_token\r\nContent-Type: application/json;charset=UTF-8\r\nUser-Agent: Java/1.8.0_202\r\nHost: 127.0.0.1:9999\r\nConnection: keep-alive\r\nContent-Length: 46\r\n\r\n{\"jobId\":1,\"logId\":7,\"executorHandler\":\"demo\"}";

/// Reads so many requests, one after another on one link, and prints how many came, with requests per
/// second if timed.
pub fn run(rt: &(impl Print + Clock), alloc: Global, rounds: u32, timed: bool) -> io::Result<()> {
    read(rt, alloc, "whole", rounds, 65_536, timed)?;
    read(rt, alloc, "byte by byte", rounds, 1, timed)
}

/// Reads the requests in pieces of at most so many bytes.
fn read(
    rt: &(impl Print + Clock),
    alloc: Global,
    name: &str,
    rounds: u32,
    piece: usize,
    timed: bool,
) -> io::Result<()>
    requires { 0 < piece }
{
    let stream = match stream(alloc, rounds) {
        Ok(stream) => stream,
        Err(e) => return Err(io::Error::from(e)),
    };
    let mut link = MemoryLink::new(alloc, stream).in_pieces(piece);
    let mut buffer = HttpBuffer::new(alloc);
    let mut count: u64 = 0;
    let start = Instant::now(rt)?;
    for _ in 0..rounds {
        if let Ok(Some(_)) = read_request(alloc, &mut link, &mut buffer) {
            count = count.saturating_add(1);
        }
    }
    let nanos = start.elapsed(rt)?.as_nanos();
    println!(rt; "requests {name}: {count} of {} bytes", REQUEST.len())?;
    if timed && nanos > 0 {
        let rate = count as u128 * 1_000_000_000 / nanos;
        println!(rt; "  {rate} a second")?;
    }
    Ok(())
}

/// So many requests, one after another.
fn stream(alloc: Global, rounds: u32) -> Result<Vec<u8>, AllocError> {
    let mut stream = Vec::new(alloc);
    for _ in 0..rounds {
        stream.extend_from_slice(REQUEST)?;
    }
    Ok(stream)
}
