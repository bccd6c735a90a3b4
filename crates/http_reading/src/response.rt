//! The one response on a link.
ghost use Rattle.std.specs.Prelude.{◌≡◌, ◌≤◌, Err, IfOk, IfErr};
ghost use Rattle.outside.specs.Causes.{Rose};
ghost use Rattle.http_reading.specs.Draws.{Fails};
ghost use Rattle.http_reading.specs.Heads.{TopRead};
ghost use Rattle.http_reading.specs.Responses.{TopFault, HearsAnswer, HearsFault};

use super::body::read_body;
use super::fault::HttpFault;
use super::fill::fill_line;
use super::piece::Piece;
use super::top::{Top, parse_top};
use job_values::Seq;
use outside::Link;
use std::alloc::Global;

/// A response.
#[derive(Drop)]
pub struct Response {
    pub status: u16,
    pub body: Seq<u8>,
}

/// Reads until a head is whole.
fn read_top<L: Link>(link: &mut L, piece: &mut Piece, bytes: &mut Vec<u8>) -> Result<Top, HttpFault>
    ensures ok { IfOk result (TopRead L.left L.seen L.taken L.met L.dial L.faults link.old link.new bytes.old.items bytes.new.items) }
    ensures err { IfErr result (Fails L.left L.seen L.taken L.met L.dial L.faults link.old link.new bytes.old.items TopFault) }
{
    let mut ended = false;
    loop {
        if let Some(top) = parse_top(bytes.as_slice())? {
            return Ok(top);
        }
        if ended {
            return Err(HttpFault::Ended { taken: bytes.len() });
        }
        ended = fill_line(link, piece, bytes, 0)?;
    }
}

/// Reads the response at the front of what the link gives. A body of which its head says nothing goes to
/// the link's end. No byte at all is `Ended { taken: 0 }`.
pub fn read_response<L: Link>(alloc: Global, link: &mut L) -> Result<Response, HttpFault>
    // The bytes that this call read begin with the response, or have the fault.
    ensures response { IfOk result (HearsAnswer (L.left link.old) (L.left link.new)
        (L.seen link.old) (L.seen link.new) (L.met link.old) (L.met link.new)) }
    ensures fault { IfErr result (HearsFault (L.left link.old) (L.left link.new)
        (L.seen link.old) (L.seen link.new) (L.met link.old) (L.met link.new)) }
    ensures cause { result ≡ Err HttpFault.LinkFault → Rose (L.faults link.old) (L.faults link.new) }
    ensures later { L.faults link.old ≤ L.faults link.new }
    ensures written { L.taken link.new ≡ L.taken link.old }
    ensures place { L.dial link.new ≡ L.dial link.old }
{
    let mut piece = Piece::new(alloc);
    let mut bytes = Vec::new(alloc);
    let top = read_top(link, &mut piece, &mut bytes)?;
    let body = read_body(alloc, link, &mut piece, &mut bytes, top.len, top.plan)?;
    Ok(Response {
        status: top.status,
        body: body.bytes,
    })
}
