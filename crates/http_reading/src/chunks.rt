//! Chunked bodies.
ghost use Rattle.std.specs.Prelude.{◌≡◌, ℕ, ◌≤◌, ◌<◌, ◌+◌, ◌^◌, true, false, List, Bool, length, drop, IfOk, IfErr};
ghost use Rattle.http_reading.specs.Draws.{Draws, Fails};
ghost use Rattle.http_reading.specs.BodyReads.{BodyRead, Behind};
ghost use Rattle.http_reading.specs.ChunkReads.{ChunkRead, ChunkFault};

use super::body::Body;
use super::close::read_close;
use super::fault::HttpFault;
use super::piece::Piece;
use super::plan::BodyPlan;
use super::size_line::read_size;
use job_values::Seq;
use job_values::limits::LONGEST_BODY;
use outside::Link;
use std::alloc::Global;

/// What became of a chunk.
#[derive(Clone, Copy)]
pub(crate) struct ReadTo {
    /// Where the bytes behind it begin.
    pub end: usize,
    /// Whether it has no content and so is the last.
    pub last: bool,
}

/// Reads the chunk that begins at `at`, and puts its content behind the body.
fn read_chunk<L: Link>(
    link: &mut L,
    piece: &mut Piece,
    bytes: &mut Vec<u8>,
    at: usize,
    body: &mut Vec<u8>,
) -> Result<ReadTo, HttpFault>
    requires at { at ≤ length bytes.old.items }
    requires few { length body.old.items ≤ LONGEST_BODY }
    ensures ok { IfOk result (ChunkRead L.left L.seen L.taken L.met L.dial L.faults link.old link.new bytes.old.items bytes.new.items at body.old.items body.new.items) }
    ensures err { IfErr result (Fails L.left L.seen L.taken L.met L.dial L.faults link.old link.new bytes.old.items (ChunkFault at (length body.old.items))) }
{
    let line = read_size(link, piece, bytes, at)?;
    if line.size > LONGEST_BODY - body.len() {
        return Err(HttpFault::TooLarge);
    }
    let content = at + line.len;
    let end = content + line.size;
    read_close(link, piece, bytes, end)?;
    match body.extend_from_slice(&bytes[content..end]) {
        Ok(()) => Ok(ReadTo {
            end: end + 2,
            last: line.size == 0,
        }),
        Err(_) => Err(HttpFault::NoMemory),
    }
}

/// Reads a chunked body that begins at `start`.
pub(crate) fn chunked_body<L: Link>(
    alloc: Global,
    link: &mut L,
    piece: &mut Piece,
    bytes: &mut Vec<u8>,
    start: usize,
) -> Result<Body, HttpFault>
    requires { start ≤ length bytes.old.items }
    ensures ok { IfOk result (BodyRead L.left L.seen L.taken L.met L.dial L.faults link.old link.new bytes.old.items bytes.new.items BodyPlan.Chunked start) }
    ensures err { IfErr result (Fails L.left L.seen L.taken L.met L.dial L.faults link.old link.new bytes.old.items (Behind BodyPlan.Chunked start)) }
{
    let mut body = Vec::new(alloc);
    let mut at = start;
    loop {
        let read = read_chunk(link, piece, bytes, at, &mut body)?;
        at = read.end;
        if read.last {
            return Ok(Body {
                bytes: Seq::of(body),
                end: at,
            });
        }
    }
}
