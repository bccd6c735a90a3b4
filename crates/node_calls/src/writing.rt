//! Answers and refusals as they are written to a link.
ghost use Rattle.std.specs.Prelude.{◌≡◌, ◌≤◌, ◌⊎◌, [], ◌∷◌, ◌++◌, length, decimal, Err, IfErr, OnOk, OnErr};
ghost use Rattle.std.specs.Io.KnownBytes.{Appends};
ghost use Rattle.outside.specs.Causes.{Rose};
ghost use Rattle.outside.specs.Streams.{AppendsFront};
ghost use Rattle.node_calls.specs.Exchanges.{answer_text, refusal_text, RefusalGave};

use http_ends::write_response;
use http_reading::{HttpFault, Response};
use itoa::Buffer;
use job_values::{NoMemory, Seq};
use outside::{Link, send};
use std::alloc::Global;

/// Puts bytes behind a text.
pub fn put(text: &mut Vec<u8>, bytes: &[u8]) -> Result<(), NoMemory>
    ensures { OnOk result (text.new.items ≡ text.old.items ++ bytes.now) }
{
    text.extend_from_slice(bytes).map_err(|_| NoMemory)
}

/// Puts a number's decimal digits behind a text.
fn put_number(text: &mut Vec<u8>, number: usize) -> Result<(), NoMemory>
    ensures { OnOk result (text.new.items ≡ text.old.items ++ decimal number) }
{
    let mut digits = Buffer::new();
    put(text, digits.format(number).as_bytes())
}

/// Makes a text that of an answer with this body.
fn make_answer(text: &mut Vec<u8>, body: &[u8]) -> Result<(), NoMemory>
    ensures { OnOk result (text.new.items ≡ answer_text body.now) }
{
    text.clear();
    put(
        text,
        b"HTTP/1.1 200 OK\r\nContent-Type: application/json;charset=UTF-8\r\nContent-Length: ",
    )?;
    put_number(text, body.len())?;
    put(text, b"\r\n\r\n")?;
    put(text, body)
}

/// Writes an answer with this body, or a front of it. The text is what it is made in; its room is used
/// again from one answer to the next.
pub fn write_answer<L: Link>(link: &mut L, text: &mut Vec<u8>, body: &[u8]) -> Result<(), HttpFault>
    ensures ok { OnOk result (Appends (L.taken link.old) (L.taken link.new) (answer_text body.now)) }
    ensures err { OnErr result (AppendsFront (L.taken link.old) (L.taken link.new) (answer_text body.now)) }
    ensures fault { IfErr result (λ e. (e ≡ HttpFault.NoMemory) ⊎ ((e ≡ HttpFault.LinkFault) × Rose (L.faults link.old) (L.faults link.new))) }
    ensures later { L.faults link.old ≤ L.faults link.new }
    ensures other { L.left link.new ≡ L.left link.old }
{
    match make_answer(text, body) {
        Ok(()) => send(link, text.as_slice()).map_err(|_| HttpFault::LinkFault),
        Err(NoMemory) => Err(HttpFault::NoMemory),
    }
}

/// Writes what is written for bytes that are no request, if anything is, and tells the last fault.
pub fn write_refusal<L: Link>(alloc: Global, link: &mut L, fault: HttpFault) -> HttpFault
    ensures gave { RefusalGave (L.taken link.old) (L.taken link.new) (L.faults link.old) (L.faults link.new) fault result }
    ensures end { L.met link.new ≡ L.met link.old }
    ensures later { L.faults link.old ≤ L.faults link.new }
{
    let status = match fault {
        HttpFault::BadHead | HttpFault::BadBody { .. } => 400,
        HttpFault::TooLarge => 413,
        _ => return fault,
    };
    let body = Seq::new(alloc);
    match write_response(alloc, link, &Response { status, body }) {
        Ok(()) => fault,
        Err(last) => last,
    }
}
