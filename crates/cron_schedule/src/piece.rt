//! Where the items of a cron text begin.
ghost use Rattle.std.specs.Prelude.{◌≡◌, ◌≤◌, ◌<◌, length, position, not, IfOk, IfSome};
ghost use Rattle.cron_schedule.specs.Pieces.{is_blank, in_item, pieces, up_to, item_at, stands_alone};

use job_values::NoMemory;
use std::alloc::Global;

/// Where an item begins: its field, counted from 1, and the place of its first byte, from 0.
#[derive(Clone, Copy, PartialEq, Eq)]
pub struct Piece {
    pub field: u8,
    pub start: u8,
}

fn is_blank_byte(byte: u8) -> bool
    ensures { result ≡ is_blank byte }
{
    byte == b' ' || byte == b'\t'
}

fn is_in_item(byte: u8) -> bool
    ensures { result ≡ in_item byte }
{
    !is_blank_byte(byte) && byte != b','
}

/// Where the items of a text begin, from left to right.
pub fn pieces_of(alloc: Global, text: &[u8]) -> Result<Vec<Piece>, NoMemory>
    requires { length text.now ≤ 128 }
    ensures { IfOk result (λ ps. ps.items ≡ pieces text.now) }
{
    let mut found = Vec::new(alloc);
    let mut field: u8 = 0;
    let mut before = b' ';
    for (start, byte) in text.iter().enumerate() {
        let byte = *byte;
        if before == b',' {
            let start = start as u8;
            found.push(Piece { field, start }).map_err(|_| NoMemory)?;
        } else if is_blank_byte(before) && !is_blank_byte(byte) {
            field += 1;
            let start = start as u8;
            found.push(Piece { field, start }).map_err(|_| NoMemory)?;
        }
        before = byte;
    }
    if before == b',' {
        let start = text.len() as u8;
        found.push(Piece { field, start }).map_err(|_| NoMemory)?;
    }
    Ok(found)
}

fn item_end(rest: &[u8]) -> Option<usize>
    ensures value { result ≡ position (λ byte. not (in_item byte)) rest.now }
    ensures inside { IfSome result (λ end. end < length rest.now) }
{
    rest.iter().position(|b| !is_in_item(*b))
}

fn first_item(rest: &[u8]) -> &[u8]
    ensures { result.now ≡ up_to (position (λ byte. not (in_item byte)) rest.now) rest.now }
{
    match item_end(rest) {
        Some(end) => &rest[..end],
        None => rest,
    }
}

/// The bytes of the item that begins at a place.
pub fn bytes_at(text: &[u8], start: usize) -> &[u8]
    ensures { result.now ≡ item_at text.now start }
{
    if start > text.len() {
        return &text[..0];
    }
    first_item(text.split_at(start).1)
}

/// Whether no comma stands directly before or behind the item that begins at a place.
pub fn is_alone(text: &[u8], start: u8) -> bool
    ensures { result ≡ stands_alone text.now start }
{
    let start = start as usize;
    let end = start as u64 + bytes_at(text, start).len() as u64;
    let first = start == 0 || start > text.len() || text[start - 1] != b',';
    let last = end >= text.len() as u64 || text[end as usize] != b',';
    first && last
}
