//! The CR LF behind the content of a chunk.
ghost use Rattle.std.specs.Prelude.{◌≡◌, ◌≢◌, ℕ, ◌+◌, ◌^◌, ◌<◌, ◌≤◌, true, false, [], ◌∷◌, drop, List, Bool, length, IfOk, IfErr, OnOk, MatchBool};
ghost use Rattle.http_reading.specs.ChunkReads.{Closing, ClosedAt, OpenAt, CloseRefused, Closed, CloseFault};
ghost use Rattle.http_reading.specs.Draws.{Draws, Fails};

use super::fault::HttpFault;
use super::fill::fill;
use super::piece::Piece;
use outside::Link;

/// Whether CR LF is at the front of the bytes; an `Err` has the place of the byte that stands in its way.
fn closing(bytes: &[u8]) -> Result<bool, usize>
    ensures { Closing bytes.now result }
{
    if bytes.is_empty() {
        return Ok(false);
    }
    if bytes[0] != b'\r' {
        return Err(0);
    }
    if bytes.len() == 1 {
        return Ok(false);
    }
    if bytes[1] != b'\n' {
        return Err(1);
    }
    Ok(true)
}

/// Whether CR LF is at `end`; not yet, where the bytes end before it does.
fn closed_at(bytes: &[u8], end: usize) -> Result<bool, HttpFault>
    requires { length bytes.now < 2 ^ 63 }
    ensures ok { IfOk result (λ whole. MatchBool whole (ClosedAt bytes.now end) (OpenAt bytes.now end)) }
    ensures err { IfErr result (CloseRefused bytes.now end) }
{
    if end > bytes.len() {
        return Ok(false);
    }
    match closing(&bytes[end..]) {
        Ok(whole) => Ok(whole),
        Err(place) => Err(HttpFault::BadBody { place: end + place }),
    }
}

/// Reads until the content that ends at `end` and its CR LF are there.
pub(crate) fn read_close<L: Link>(
    link: &mut L,
    piece: &mut Piece,
    bytes: &mut Vec<u8>,
    end: usize,
) -> Result<(), HttpFault>
    ensures ok { OnOk result (Closed L.left L.seen L.taken L.met L.dial L.faults link.old link.new bytes.old.items bytes.new.items end) }
    ensures err { IfErr result (Fails L.left L.seen L.taken L.met L.dial L.faults link.old link.new bytes.old.items (CloseFault end)) }
{
    while !closed_at(bytes.as_slice(), end)? {
        if fill(link, piece, bytes)? {
            return Err(HttpFault::Ended { taken: bytes.len() });
        }
    }
    Ok(())
}
