//! The head of a response.
ghost use Rattle.std.specs.Prelude.{◌≡◌, ◌≢◌, ℕ, ◌<◌, ◌≤◌, true, false, take, List, Bool, All, length, map, IfOk, IfErr, MatchOption};
ghost use Rattle.http_reading.specs.Heads.{TopAt, TopRefused};
ghost use Rattle.http_reading.specs.Responses.{OpenTop};

use super::fault::HttpFault;
use super::head::front;
use super::plan::{BodyPlan, MOST_FIELDS, MOST_LINE, plan_of};
use httparse::spans::{EMPTY_HEADER_SPAN, parse_response};
use httparse::{Error, Status};

/// What the head of a response says.
#[derive(Clone, Copy)]
pub(crate) struct Top {
    /// How many bytes it has.
    pub len: usize,
    pub status: u16,
    pub plan: BodyPlan,
}

/// The head at the front of the bytes, if it is whole.
pub(crate) fn parse_top(bytes: &[u8]) -> Result<Option<Top>, HttpFault>
    ensures ok { IfOk result (λ o. MatchOption o (OpenTop bytes.now) (TopAt bytes.now)) }
    ensures err { IfErr result (TopRefused bytes.now) }
{
    let text = front(bytes);
    let mut headers = [EMPTY_HEADER_SPAN; MOST_FIELDS];
    match parse_response(text, &mut headers) {
        Ok(Status::Complete(spans)) => Ok(Some(Top {
            len: spans.len,
            status: spans.code,
            plan: plan_of(text, &headers[..spans.headers]).of_response(),
        })),
        Ok(Status::Partial) => {
            if bytes.len() < MOST_LINE {
                Ok(None)
            } else {
                Err(HttpFault::TooLarge)
            }
        }
        Err(Error::TooManyHeaders) => Err(HttpFault::TooLarge),
        Err(_) => Err(HttpFault::BadHead),
    }
}
