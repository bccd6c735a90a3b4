//! Responses and requests as they are written to a link.
ghost use Rattle.std.specs.Prelude.{◌≡◌, ◌≢◌, ℕ, ◌≤◌, ◌⊎◌, [], ◌∷◌, ◌++◌, length, codes, decimal, Ok, Err, IfOk, IfErr, OnOk, OnErr};
ghost use Rattle.std.specs.Io.KnownBytes.{Appends};
ghost use Rattle.outside.specs.Causes.{Rose};
ghost use Rattle.outside.specs.Streams.{AppendsFront};
ghost use Rattle.http_ends.specs.Addresses.{closed_path, address_of};
ghost use Rattle.http_ends.specs.Writing.{CanBeWritten, answer_head, response_text, token_line, request_text};

use super::address::Parts;
use http_reading::{HttpFault, Response};
use itoa::Buffer;
use job_values::NoMemory;
use outside::{Link, send};
use std::alloc::Global;

/// How many bytes the head of an answer has at most, and that of a request beside its host, its paths and
/// its token.
const HEAD_ROOM: usize = 192;

/// A text without bytes, with room for so many.
fn text_with_room(alloc: Global, room: usize) -> Result<Vec<u8>, NoMemory>
    ensures { IfOk result (λ t. t.items ≡ []) }
{
    Vec::with_capacity(alloc, room).map_err(|_| NoMemory)
}

/// Puts bytes behind a text.
fn put(text: &mut Vec<u8>, bytes: &[u8]) -> Result<(), NoMemory>
    ensures { OnOk result (text.new.items ≡ text.old.items ++ bytes.now) }
{
    text.extend_from_slice(bytes).map_err(|_| NoMemory)
}

/// Puts a number's decimal digits behind a text.
fn put_number(text: &mut Vec<u8>, number: usize) -> Result<(), NoMemory>
    ensures { OnOk result (text.new.items ≡ text.old.items ++ decimal number) }
{
    let mut digits = Buffer::new();
    put(text, digits.format(number).as_bytes())
}

/// The bytes of an answer with this body.
fn answer_text(alloc: Global, body: &[u8]) -> Result<Vec<u8>, NoMemory>
    ensures { IfOk result (λ t. t.items ≡ answer_head (length body.now) ++ body.now) }
{
    let mut text = text_with_room(alloc, body.len().saturating_add(HEAD_ROOM))?;
    put(
        &mut text,
        b"HTTP/1.1 200 OK\r\nContent-Type: application/json;charset=UTF-8\r\nContent-Length: ",
    )?;
    put_number(&mut text, body.len())?;
    put(&mut text, b"\r\n\r\n")?;
    put(&mut text, body)?;
    Ok(text)
}

/// Puts the path that follows the port of an address behind a text, with a slash at its end.
fn put_base(text: &mut Vec<u8>, tail: &str) -> Result<(), NoMemory>
    ensures { OnOk result (text.new.items ≡ text.old.items ++ closed_path (47 ∷ tail.now)) }
{
    put(text, b"/")?;
    put(text, tail.as_bytes())?;
    match tail.as_bytes() {
        [] | [.., b'/'] => Ok(()),
        _ => put(text, b"/"),
    }
}

/// Puts the line of a token behind a text, if there is one.
fn put_token(text: &mut Vec<u8>, token: &[u8]) -> Result<(), NoMemory>
    ensures { OnOk result (text.new.items ≡ text.old.items ++ token_line token.now) }
{
    if token.is_empty() {
        return Ok(());
    }
    put(text, b"XXL-JOB-ACCESS-TOKEN: ")?;
    put(text, token)?;
    put(text, b"\r\n")
}

/// The bytes of a request to an address, of which these are the parts.
pub(crate) fn text_of_request(
    alloc: Global,
    parts: &Parts,
    path: &str,
    token: &[u8],
    body: &[u8],
) -> Result<Vec<u8>, NoMemory>
    ensures { IfOk result (λ t. t.items ≡ request_text (address_of parts.now.host.now parts.now.port parts.now.tail.now) path.now token.now body.now) }
{
    let room = HEAD_ROOM
        .saturating_add(parts.host.len())
        .saturating_add(parts.tail.len())
        .saturating_add(path.len())
        .saturating_add(token.len())
        .saturating_add(body.len());
    let mut text = text_with_room(alloc, room)?;
    put(&mut text, b"POST ")?;
    put_base(&mut text, parts.tail)?;
    put(&mut text, path.as_bytes())?;
    put(&mut text, b" HTTP/1.1\r\nHost: ")?;
    put(&mut text, parts.host.as_bytes())?;
    put(&mut text, b":")?;
    put_number(&mut text, usize::from(parts.port))?;
    put(
        &mut text,
        b"\r\nContent-Type: application/json;charset=UTF-8\r\n",
    )?;
    put_token(&mut text, token)?;
    put(&mut text, b"Connection: close\r\nContent-Length: ")?;
    put_number(&mut text, body.len())?;
    put(&mut text, b"\r\n\r\n")?;
    put(&mut text, body)?;
    Ok(text)
}

/// Writes all of the bytes to a link, or a front of them.
pub(crate) fn send_text<L: Link>(link: &mut L, bytes: &[u8]) -> Result<(), HttpFault>
    ensures ok { OnOk result (Appends (L.taken link.old) (L.taken link.new) bytes.now) }
    ensures err { OnErr result (AppendsFront (L.taken link.old) (L.taken link.new) bytes.now) }
    ensures fault { IfErr result (λ e. (e ≡ HttpFault.LinkFault) × Rose (L.faults link.old) (L.faults link.new)) }
    ensures later { L.faults link.old ≤ L.faults link.new }
    ensures other { L.left link.new ≡ L.left link.old }
    ensures seen { L.seen link.new ≡ L.seen link.old }
    ensures end { L.met link.new ≡ L.met link.old }
    ensures place { L.dial link.new ≡ L.dial link.old }
{
    send(link, bytes).map_err(|_| HttpFault::LinkFault)
}

/// Writes a response, or a front of it: an answer with the status 200, or the refusal of a request with
/// the status 400 or 413 and no body. `LinkFault` where the link failed, and no other fault but `NoMemory`.
pub fn write_response<L: Link>(
    alloc: Global,
    link: &mut L,
    response: &Response,
) -> Result<(), HttpFault>
    requires { CanBeWritten response.now }
    ensures ok { OnOk result (Appends (L.taken link.old) (L.taken link.new) (response_text response.now)) }
    ensures err { OnErr result (AppendsFront (L.taken link.old) (L.taken link.new) (response_text response.now)) }
    ensures fault { IfErr result (λ e. (e ≡ HttpFault.NoMemory) ⊎ ((e ≡ HttpFault.LinkFault) × Rose (L.faults link.old) (L.faults link.new))) }
    ensures memory { result ≡ Err HttpFault.NoMemory → link.new ≡ link.old }
    ensures later { L.faults link.old ≤ L.faults link.new }
    ensures other { L.left link.new ≡ L.left link.old }
    ensures seen { L.seen link.new ≡ L.seen link.old }
    ensures end { L.met link.new ≡ L.met link.old }
    ensures place { L.dial link.new ≡ L.dial link.old }
{
    if response.status == 200 {
        return match answer_text(alloc, response.body.as_slice()) {
            Ok(text) => send_text(link, &text),
            Err(NoMemory) => Err(HttpFault::NoMemory),
        };
    }
    if response.status == 400 {
        return send_text(
            link,
            b"HTTP/1.1 400 Bad Request\r\nContent-Length: 0\r\nConnection: close\r\n\r\n",
        );
    }
    send_text(
        link,
        b"HTTP/1.1 413 Payload Too Large\r\nContent-Length: 0\r\nConnection: close\r\n\r\n",
    )
}
