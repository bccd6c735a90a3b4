//! Requests, one after another on a link.
ghost use Rattle.std.specs.Prelude.{◌≡◌, ◌≤◌, [], true, false, Err, is_err, IfOk, IfErr, IsNone, MatchOption};
ghost use Rattle.outside.specs.Causes.{Rose};
ghost use Rattle.http_reading.specs.Draws.{Fails};
ghost use Rattle.http_reading.specs.Heads.{HeadRead};
ghost use Rattle.http_reading.specs.Requests.{HeadFault, HasFault, Took, stream, MeetsEnd, TakesNone, TakesRequest, FaultOf, IsEnd};

use super::body::{drop_front, read_body};
use super::fault::HttpFault;
use super::fill::fill_line;
use super::head::{Head, parse_head};
use super::piece::Piece;
use job_values::Seq;
use outside::Link;
use std::alloc::Global;
use std::marker::Model;

/// A request. Its values have no white space around them.
#[derive(Drop)]
pub struct Request {
    pub method: Seq<u8>,
    pub path: Seq<u8>,
    /// The value of the first `XXL-JOB-ACCESS-TOKEN` field.
    pub token: Option<Seq<u8>>,
    /// Whether it is the last on its link: HTTP/1.0, or `Connection: close`.
    pub close: bool,
    pub body: Seq<u8>,
}

/// What a link gave beyond the requests that were read. One buffer goes with one link.
#[derive(Drop)]
pub struct HttpBuffer {
    piece: Piece,
    bytes: Vec<u8>,
    faulted: bool,
}

impl Model for HttpBuffer {
    ghost use Rattle.http_reading.specs.Buffer.{BufferView};

    ghost Value = { BufferView };

    ghost view = { λ b. record { bytes = b.bytes.items; faulted = b.faulted } };
}

impl HttpBuffer {
    /// A buffer without bytes, which has met no fault. It takes no memory.
    pub fn new(alloc: Global) -> HttpBuffer
        ensures { result ≡ record { bytes = []; faulted = false } }
    {
        HttpBuffer {
            piece: Piece::new(alloc),
            bytes: Vec::new(alloc),
            faulted: false,
        }
    }
}

/// Reads until a head is whole; `None` where the link ends and there is no byte.
fn read_head<L: Link>(
    alloc: Global,
    link: &mut L,
    piece: &mut Piece,
    bytes: &mut Vec<u8>,
) -> Result<Option<Head>, HttpFault>
    ensures ok { IfOk result (HeadRead L.left L.seen L.taken L.met L.dial L.faults link.old link.new bytes.old.items bytes.new.items) }
    ensures err { IfErr result (Fails L.left L.seen L.taken L.met L.dial L.faults link.old link.new bytes.old.items HeadFault) }
{
    let mut ended = bytes.is_empty() && fill_line(link, piece, bytes, 0)?;
    loop {
        if let Some(head) = parse_head(alloc, bytes.as_slice())? {
            return Ok(Some(head));
        }
        if ended {
            return match bytes.len() {
                0 => Ok(None),
                taken => Err(HttpFault::Ended { taken }),
            };
        }
        ended = fill_line(link, piece, bytes, 0)?;
    }
}

/// Reads a request; the bytes behind it stay held. `None` where the link ends and there is no byte.
fn take_request<L: Link>(
    alloc: Global,
    link: &mut L,
    piece: &mut Piece,
    bytes: &mut Vec<u8>,
) -> Result<Option<Request>, HttpFault>
    ensures ok { IfOk result (Took L.left L.seen L.taken L.met L.dial L.faults link.old link.new bytes.old.items bytes.new.items) }
    ensures err { IfErr result (Fails L.left L.seen L.taken L.met L.dial L.faults link.old link.new bytes.old.items HasFault) }
{
    let Some(head) = read_head(alloc, link, piece, bytes)? else {
        return Ok(None);
    };
    let body = read_body(alloc, link, piece, bytes, head.len, head.plan)?;
    drop_front(bytes, body.end);
    Ok(Some(Request {
        method: head.method,
        path: head.path,
        token: head.token,
        close: head.close,
        body: body.bytes,
    }))
}

/// Reads the request at the front of the buffer's bytes and then the link's; `None` where there is no
/// byte. It reads no more of the link than it needs to see the request's last byte, up to the piece
/// that the link gives. After a fault every call on the buffer answers `Ended { taken: 0 }`.
pub fn read_request<L: Link>(
    alloc: Global,
    link: &mut L,
    buffer: &mut HttpBuffer,
) -> Result<Option<Request>, HttpFault>
    // The request at the front of the stream, and what follows it is the stream now.
    ensures request { IfOk result (λ o. MatchOption o
        (TakesNone (stream buffer.old.bytes (L.left link.old)) (stream buffer.new.bytes (L.left link.new)))
        (TakesRequest (stream buffer.old.bytes (L.left link.old)) (stream buffer.new.bytes (L.left link.new)))) }
    ensures fault { IfErr result (λ e. buffer.old.faulted ≡ false → FaultOf (stream buffer.old.bytes (L.left link.old)) e) }
    // The end is met where there is no request, and not else: a call reads no further once it holds one.
    ensures early { IfOk result (MeetsEnd (L.met link.old) (L.met link.new)) }
    // `None` and `Ended` come only where the link's end was met, whether the link tells its bytes or not.
    ensures none { IfOk result (λ o. IsNone o → L.met link.new ≡ true) }
    ensures ended { IfErr result (λ e. buffer.old.faulted ≡ false → IsEnd e → L.met link.new ≡ true) }
    ensures cause { result ≡ Err HttpFault.LinkFault → Rose (L.faults link.old) (L.faults link.new) }
    ensures later { L.faults link.old ≤ L.faults link.new }
    ensures written { L.taken link.new ≡ L.taken link.old }
    ensures place { L.dial link.new ≡ L.dial link.old }
    ensures faulted { buffer.new.faulted ≡ is_err result }

    // A faulted buffer answers at once.
    ensures spent { buffer.old.faulted ≡ true → result ≡ Err (HttpFault.Ended 0) }
    ensures still { buffer.old.faulted ≡ true → link.new ≡ link.old }
{
    if buffer.faulted {
        return Err(HttpFault::Ended { taken: 0 });
    }
    match take_request(alloc, link, &mut buffer.piece, &mut buffer.bytes) {
        Ok(request) => Ok(request),
        Err(fault) => {
            buffer.faulted = true;
            Err(fault)
        }
    }
}
