//! Bytes come from a link to the end of those that are held.
ghost use Rattle.std.specs.Prelude.{◌≡◌, ℕ, ◌+◌, ◌<◌, ◌≤◌, true, false, List, Bool, length, IfOk, IfErr};
ghost use Rattle.http_reading.specs.Draws.{Draws, Fails, Came, SameLine, Outer};

use super::fault::HttpFault;
use super::piece::Piece;
use super::plan::MOST_LINE;
use outside::Link;

/// Reads once. Answers whether the link has ended.
pub(crate) fn fill<L: Link>(
    link: &mut L,
    piece: &mut Piece,
    bytes: &mut Vec<u8>,
) -> Result<bool, HttpFault>
    ensures ok { IfOk result (Came L.left L.seen L.taken L.met L.dial L.faults link.old link.new bytes.old.items bytes.new.items) }
    ensures same { IfOk result (λ ended. ended ≡ true → bytes.new.items ≡ bytes.old.items) }
    ensures err { IfErr result (Fails L.left L.seen L.taken L.met L.dial L.faults link.old link.new bytes.old.items Outer) }
{
    piece.make_ready()?;
    let count = match link.read(&mut piece.block) {
        Ok(count) => count,
        Err(_) => return Err(HttpFault::LinkFault),
    };
    if count == 0 {
        return Ok(true);
    }
    match bytes.extend_from_slice(&piece.block[..count]) {
        Ok(()) => Ok(false),
        Err(_) => Err(HttpFault::NoMemory),
    }
}

/// Reads until a line has ended, the bytes from `start` on are twice as many or as many as a line may
/// have, or the link has ended, and answers whether it has. So lines that come byte by byte are parsed
/// at their ends and at each doubling alone.
pub(crate) fn fill_line<L: Link>(
    link: &mut L,
    piece: &mut Piece,
    bytes: &mut Vec<u8>,
    start: usize,
) -> Result<bool, HttpFault>
    requires { start ≤ length bytes.old.items }
    ensures ok { IfOk result (Came L.left L.seen L.taken L.met L.dial L.faults link.old link.new bytes.old.items bytes.new.items) }
    ensures same { IfOk result (λ ended. ended ≡ true → SameLine bytes.old.items bytes.new.items) }
    ensures err { IfErr result (Fails L.left L.seen L.taken L.met L.dial L.faults link.old link.new bytes.old.items Outer) }
{
    let tried = bytes.len();
    loop {
        let before = bytes.len();
        if fill(link, piece, bytes)? {
            return Ok(true);
        }
        let many = bytes.len() - start >= MOST_LINE || bytes.len() - tried >= tried - start;
        if many || bytes[before..].contains(&b'\n') {
            return Ok(false);
        }
    }
}
