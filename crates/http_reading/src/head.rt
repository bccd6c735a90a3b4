//! The head of a request.
ghost use Rattle.std.specs.Prelude.{◌≡◌, ◌≢◌, ℕ, ◌<◌, ◌≤◌, true, false, take, List, Bool, All, length, map, IfOk, IfErr, MatchOption};
ghost use Rattle.httparse.specs.Spans.{IsWithin, IsHeaderWithin, header_bytes};
ghost use Rattle.http_reading.specs.Plans.{token_of};
ghost use Rattle.http_reading.specs.Heads.{HeadSays, HeadAt, HeadRefused};
ghost use Rattle.http_reading.specs.Requests.{OpenHead};

use super::fault::HttpFault;
use super::fields::{has_close, values_of};
use super::plan::{BodyPlan, MOST_FIELDS, MOST_LINE, plan_of};
use httparse::spans::{EMPTY_HEADER_SPAN, HeaderSpan, RequestSpans, parse_request};
use httparse::{Error, Status};
use job_values::Seq;
use std::alloc::Global;

/// What the head of a request says.
#[derive(Drop)]
pub(crate) struct Head {
    /// How many bytes it has.
    pub len: usize,
    pub method: Seq<u8>,
    pub path: Seq<u8>,
    pub token: Option<Seq<u8>>,
    pub close: bool,
    pub plan: BodyPlan,
}

/// The bytes that a head may have.
pub(crate) fn front(bytes: &[u8]) -> &[u8]
    ensures { result.now ≡ take MOST_LINE bytes.now }
{
    if bytes.len() <= MOST_LINE {
        bytes
    } else {
        &bytes[..MOST_LINE]
    }
}

/// A copy of these bytes.
pub(crate) fn copied(alloc: Global, bytes: &[u8]) -> Result<Seq<u8>, HttpFault>
    ensures ok { IfOk result (λ s. s ≡ bytes.now) }
    ensures err { IfErr result (λ e. e ≡ HttpFault.NoMemory) }
{
    match Vec::from_slice(alloc, bytes) {
        Ok(items) => Ok(Seq::of(items)),
        Err(_) => Err(HttpFault::NoMemory),
    }
}

/// The token of a head with these fields.
fn token_of(
    alloc: Global,
    bytes: &[u8],
    headers: &[HeaderSpan],
) -> Result<Option<Seq<u8>>, HttpFault>
    requires { All (IsHeaderWithin (length bytes.now)) headers.now }
    ensures ok { IfOk result (λ token. token ≡ token_of (map (header_bytes bytes.now) headers.now)) }
    ensures err { IfErr result (λ e. e ≡ HttpFault.NoMemory) }
{
    match values_of(bytes, headers, b"xxl-job-access-token").first() {
        None => Ok(None),
        Some(value) => match copied(alloc, value.of(bytes)) {
            Ok(token) => Ok(Some(token)),
            Err(fault) => Err(fault),
        },
    }
}

/// The head that these spans cover.
fn head_of(
    alloc: Global,
    bytes: &[u8],
    headers: &[HeaderSpan],
    spans: &RequestSpans,
) -> Result<Head, HttpFault>
    requires method { IsWithin (length bytes.now) spans.now.method }
    requires path { IsWithin (length bytes.now) spans.now.path }
    requires headers { All (IsHeaderWithin (length bytes.now)) headers.now }
    ensures ok { IfOk result (HeadSays bytes.now headers.now spans.now) }
    ensures err { IfErr result (λ e. e ≡ HttpFault.NoMemory) }
{
    Ok(Head {
        len: spans.len,
        method: copied(alloc, spans.method.of(bytes))?,
        path: copied(alloc, spans.path.of(bytes))?,
        token: token_of(alloc, bytes, headers)?,
        close: spans.version == 0 || has_close(bytes, headers),
        plan: plan_of(bytes, headers),
    })
}

/// The head at the front of the bytes, if it is whole.
pub(crate) fn parse_head(alloc: Global, bytes: &[u8]) -> Result<Option<Head>, HttpFault>
    ensures ok { IfOk result (λ o. MatchOption o (OpenHead bytes.now) (HeadAt bytes.now)) }
    ensures err { IfErr result (HeadRefused bytes.now) }
{
    let text = front(bytes);
    let mut headers = [EMPTY_HEADER_SPAN; MOST_FIELDS];
    match parse_request(text, &mut headers) {
        Ok(Status::Complete(spans)) => {
            let head = head_of(alloc, text, &headers[..spans.headers], &spans)?;
            Ok(Some(head))
        }
        Ok(Status::Partial) => {
            if bytes.len() < MOST_LINE {
                Ok(None)
            } else {
                Err(HttpFault::TooLarge)
            }
        }
        Err(Error::TooManyHeaders) => Err(HttpFault::TooLarge),
        Err(_) => Err(HttpFault::BadHead),
    }
}
