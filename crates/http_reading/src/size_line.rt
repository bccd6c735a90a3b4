//! The line before a chunk, which tells its size.
ghost use Rattle.std.specs.Prelude.{◌≡◌, ℕ, ◌+◌, ◌^◌, ◌<◌, ◌≤◌, true, false, take, drop, List, Bool, length, IfOk, IfErr, MatchOption, MatchBool};
ghost use Rattle.httparse.specs.Grammar.{HasNoChunkLine, NeverHasChunkLine, MayBecomeChunkLine};
ghost use Rattle.http_reading.specs.Chunks.{OpenLine};
ghost use Rattle.http_reading.specs.ChunkReads.{FirstBad, LineAt, SizeRefused, SizeRead, SizeFault};
ghost use Rattle.http_reading.specs.Draws.{Draws, Fails};

use super::fault::HttpFault;
use super::fill::fill_line;
use super::head::front;
use super::piece::Piece;
use super::plan::MOST_LINE;
use httparse::{Status, parse_chunk_size};
use outside::Link;

/// A line that tells a size.
#[derive(Clone, Copy)]
pub(crate) struct SizeLine {
    /// How many bytes the line has.
    pub len: usize,
    pub size: usize,
}

/// The line that the parser tells.
fn told(line: (usize, u64)) -> SizeLine
    ensures { result ≡ record { len = line.0; size = line.1 } }
{
    SizeLine {
        len: line.0,
        size: line.1 as usize,
    }
}

/// Whether no line begins with these bytes, which hold no whole one.
fn is_refused(bytes: &[u8]) -> bool
    requires { HasNoChunkLine bytes.now }
    ensures { MatchBool result (NeverHasChunkLine bytes.now) (MayBecomeChunkLine bytes.now) }
{
    match parse_chunk_size(bytes) {
        Ok(Status::Complete(_)) => false,
        Ok(Status::Partial) => false,
        Err(_) => true,
    }
}

/// The place of the first byte with which no line begins, by halves.
fn first_bad(bytes: &[u8]) -> usize
    requires { NeverHasChunkLine bytes.now }
    ensures { FirstBad bytes.now result }
{
    let mut good = 0;
    let mut bad = bytes.len();
    while bad - good > 1 {
        let mid = good + (bad - good) / 2;
        if is_refused(&bytes[..mid]) {
            bad = mid;
        } else {
            good = mid;
        }
    }
    good
}

/// The line at the front of the bytes, if it is whole. The first of the bytes has the place `at`.
fn parse_size(bytes: &[u8], at: usize) -> Result<Option<SizeLine>, HttpFault>
    requires { at + length bytes.now < 2 ^ 64 }
    ensures ok { IfOk result (λ o. MatchOption o (OpenLine bytes.now) (LineAt bytes.now)) }
    ensures err { IfErr result (SizeRefused at bytes.now) }
{
    let text = front(bytes);
    let Ok(status) = parse_chunk_size(text) else {
        return Err(HttpFault::BadBody {
            place: at + first_bad(text),
        });
    };
    if status.is_complete() {
        return Ok(Some(told(status.unwrap())));
    }
    if bytes.len() < MOST_LINE {
        Ok(None)
    } else {
        Err(HttpFault::TooLarge)
    }
}

/// Reads until the line that begins at `at` is whole.
pub(crate) fn read_size<L: Link>(
    link: &mut L,
    piece: &mut Piece,
    bytes: &mut Vec<u8>,
    at: usize,
) -> Result<SizeLine, HttpFault>
    requires { at ≤ length bytes.old.items }
    ensures ok { IfOk result (SizeRead L.left L.seen L.taken L.met L.dial L.faults link.old link.new bytes.old.items bytes.new.items at) }
    ensures err { IfErr result (Fails L.left L.seen L.taken L.met L.dial L.faults link.old link.new bytes.old.items (SizeFault at)) }
{
    let mut ended = false;
    loop {
        if let Some(line) = parse_size(&bytes[at..], at)? {
            return Ok(line);
        }
        if ended {
            return Err(HttpFault::Ended { taken: bytes.len() });
        }
        ended = fill_line(link, piece, bytes, at)?;
    }
}
