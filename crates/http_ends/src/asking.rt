//! Requests that are asked of an address, one link each.
ghost use Rattle.std.specs.Prelude.{◌≡◌, ◌≢◌, ℕ, ◌≤◌, Bool, false, nat_lt, List, Option, [], Some, Ok, Err, IfErr, IfSome};
ghost use Rattle.outside.specs.Causes.{Rose};
ghost use Rattle.http_ends.specs.Addresses.{Address, IsAddress, NoAddress, address_of};
ghost use Rattle.http_ends.specs.Writing.{request_text};
ghost use Rattle.http_ends.specs.Asking.{Carries, AsksOnce};

use super::address::{Parts, read_address};
use super::writing::{send_text, text_of_request};
use http_reading::{HttpFault, Response, read_response};
use job_values::{NoMemory, Text};
use outside::{Dialer, Failed, Link};
use std::alloc::Global;
use thiserror::Error;

/// Why an ask has no response.
#[derive(Clone, Copy, Debug, PartialEq, Eq, Error)]
pub enum AskFault {
    /// The text is no address. Nothing was dialed.
    #[error("bad address")]
    BadAddress,
    /// The dial failed.
    #[error("the dial failed")]
    DialFault,
    /// The request could not be written whole, or what was read is no response.
    #[error("{0}")]
    Http(HttpFault),
}

/// Writes a request to a link and reads its response.
fn exchange<L: Link>(alloc: Global, link: &mut L, text: &[u8]) -> Result<Response, HttpFault>
    ensures carried { L.seen link.old ≡ Some [] → L.taken link.old ≡ Some [] → L.met link.old ≡ false → Carries text.now (L.seen link.new) (L.taken link.new) (L.met link.new) (nat_lt 0 (L.faults link.new)) result }
    ensures cause { result ≡ Err HttpFault.LinkFault → Rose (L.faults link.old) (L.faults link.new) }
    ensures place { L.dial link.new ≡ L.dial link.old }
{
    send_text(link, text)?;
    read_response(alloc, link)
}

/// Writes the request of these parts to a link and reads its response.
fn exchange_parts<L: Link>(
    alloc: Global,
    link: &mut L,
    parts: &Parts,
    path: &str,
    token: &Text,
    body: &[u8],
) -> Result<Response, HttpFault>
    ensures carried { L.seen link.old ≡ Some [] → L.taken link.old ≡ Some [] → L.met link.old ≡ false → Carries (request_text (address_of parts.now.host.now parts.now.port parts.now.tail.now) path.now token.now body.now) (L.seen link.new) (L.taken link.new) (L.met link.new) (nat_lt 0 (L.faults link.new)) result }
    ensures cause { result ≡ Err HttpFault.LinkFault → Rose (L.faults link.old) (L.faults link.new) }
    ensures place { L.dial link.new ≡ L.dial link.old }
{
    match text_of_request(alloc, parts, path, token.as_bytes(), body) {
        Ok(text) => exchange(alloc, link, &text),
        Err(NoMemory) => Err(HttpFault::NoMemory),
    }
}

/// Asks an address: dials its host and port, writes a POST of the address's path and this one with the
/// token and the body, and reads one response. The link is hung up in any case.
pub fn ask<D: Dialer>(
    alloc: Global,
    dialer: &mut D,
    address: &Text,
    path: &str,
    token: &Text,
    body: &[u8],
) -> Result<Response, AskFault>
    // `BadAddress` exactly where the text is no address, and then nothing was dialed.
    ensures bad { result ≡ Err AskFault.BadAddress → NoAddress address.now }
    ensures still { result ≡ Err AskFault.BadAddress → dialer.new ≡ dialer.old }
    // Otherwise there is one dial more, which tells what was asked, and how it was answered.
    ensures asked { result ≢ Err AskFault.BadAddress → (a : Address) × IsAddress address.now a × AsksOnce (D.dials dialer.old) (D.dials dialer.new) a (request_text a path.now token.now body.now) result }
    ensures dial_cause { result ≡ Err AskFault.DialFault → Rose (D.faults dialer.old) (D.faults dialer.new) }
    ensures link_cause { result ≡ Err (AskFault.Http HttpFault.LinkFault) → Rose (D.faults dialer.old) (D.faults dialer.new) }
    ensures later { D.faults dialer.old ≤ D.faults dialer.new }
{
    let parts = match read_address(address.as_str()) {
        Some(parts) => parts,
        None => return Err(AskFault::BadAddress),
    };
    let mut link = match dialer.dial(parts.host, parts.port) {
        Ok(link) => link,
        Err(Failed) => return Err(AskFault::DialFault),
    };
    let answer = exchange_parts(alloc, &mut link, &parts, path, token, body);
    dialer.hang_up(link);
    match answer {
        Ok(response) => Ok(response),
        Err(fault) => Err(AskFault::Http(fault)),
    }
}
