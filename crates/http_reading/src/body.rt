//! Bodies with a length, and bodies that go to the link's end.
ghost use Rattle.std.specs.Prelude.{◌≡◌, ℕ, ◌≤◌, ◌<◌, ◌+◌, true, false, List, Bool, length, drop, IfOk, IfErr};
ghost use Rattle.http_reading.specs.Draws.{Draws, Fails};
ghost use Rattle.http_reading.specs.BodyReads.{BodyRead, Behind};

use super::chunks::chunked_body;
use super::fault::HttpFault;
use super::fill::fill;
use super::head::copied;
use super::piece::Piece;
use super::plan::BodyPlan;
use job_values::Seq;
use job_values::limits::LONGEST_BODY;
use outside::Link;
use std::alloc::Global;

/// A body, and where the bytes behind it begin.
#[derive(Drop)]
pub(crate) struct Body {
    pub bytes: Seq<u8>,
    pub end: usize,
}

/// Reads a body of so many bytes, which begins at `start`.
fn sized_body<L: Link>(
    alloc: Global,
    link: &mut L,
    piece: &mut Piece,
    bytes: &mut Vec<u8>,
    start: usize,
    count: usize,
) -> Result<Body, HttpFault>
    requires { start ≤ length bytes.old.items }
    ensures ok { IfOk result (BodyRead L.left L.seen L.taken L.met L.dial L.faults link.old link.new bytes.old.items bytes.new.items (BodyPlan.Sized count) start) }
    ensures err { IfErr result (Fails L.left L.seen L.taken L.met L.dial L.faults link.old link.new bytes.old.items (Behind (BodyPlan.Sized count) start)) }
{
    while bytes.len() - start < count {
        if fill(link, piece, bytes)? {
            return Err(HttpFault::Ended { taken: bytes.len() });
        }
    }
    let end = start + count;
    let body = copied(alloc, &bytes[start..end])?;
    Ok(Body { bytes: body, end })
}

/// Reads a body that begins at `start` and goes to the link's end.
fn body_to_end<L: Link>(
    alloc: Global,
    link: &mut L,
    piece: &mut Piece,
    bytes: &mut Vec<u8>,
    start: usize,
) -> Result<Body, HttpFault>
    requires { start ≤ length bytes.old.items }
    ensures ok { IfOk result (BodyRead L.left L.seen L.taken L.met L.dial L.faults link.old link.new bytes.old.items bytes.new.items BodyPlan.ToEnd start) }
    ensures err { IfErr result (Fails L.left L.seen L.taken L.met L.dial L.faults link.old link.new bytes.old.items (Behind BodyPlan.ToEnd start)) }
{
    let mut ended = false;
    while !ended {
        if bytes.len() - start > LONGEST_BODY {
            return Err(HttpFault::TooLarge);
        }
        ended = fill(link, piece, bytes)?;
    }
    let body = copied(alloc, &bytes[start..])?;
    Ok(Body {
        bytes: body,
        end: bytes.len(),
    })
}

/// Reads the body that begins at `start`.
pub(crate) fn read_body<L: Link>(
    alloc: Global,
    link: &mut L,
    piece: &mut Piece,
    bytes: &mut Vec<u8>,
    start: usize,
    plan: BodyPlan,
) -> Result<Body, HttpFault>
    requires { start ≤ length bytes.old.items }
    ensures ok { IfOk result (BodyRead L.left L.seen L.taken L.met L.dial L.faults link.old link.new bytes.old.items bytes.new.items plan start) }
    ensures err { IfErr result (Fails L.left L.seen L.taken L.met L.dial L.faults link.old link.new bytes.old.items (Behind plan start)) }
{
    match plan {
        BodyPlan::Empty => Ok(Body {
            bytes: Seq::new(alloc),
            end: start,
        }),
        BodyPlan::Sized(count) => sized_body(alloc, link, piece, bytes, start, count),
        BodyPlan::Chunked => chunked_body(alloc, link, piece, bytes, start),
        BodyPlan::ToEnd => body_to_end(alloc, link, piece, bytes, start),
        BodyPlan::Bad => Err(HttpFault::BadBody { place: start }),
        BodyPlan::TooLarge => Err(HttpFault::TooLarge),
    }
}

/// Drops so many bytes at the front.
pub(crate) fn drop_front(bytes: &mut Vec<u8>, count: usize)
    requires { count ≤ length bytes.old.items }
    ensures { bytes.new.items ≡ drop count bytes.old.items }
{
    let left = bytes.len() - count;
    bytes.copy_within(count.., 0);
    bytes.truncate(left);
}
