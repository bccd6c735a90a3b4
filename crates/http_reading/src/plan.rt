//! How the body of a message is read, by the fields of its head.
ghost use Rattle.std.specs.Prelude.{◌≡◌, ◌≤◌, All, length, map};
ghost use Rattle.httparse.specs.Spans.{IsHeaderWithin, header_bytes};
ghost use Rattle.http_reading.specs.Plans.{plan_of, sized};

use super::fields::{Found, same_text, values_of};
use httparse::spans::HeaderSpan;
use job_values::limits::LONGEST_BODY;

/// The most bytes of a head, and of the line before a chunk.
pub const MOST_LINE: usize = 16_384;

/// The most fields of a head.
pub const MOST_FIELDS: usize = 64;

/// How a body is read.
#[derive(Clone, Copy, PartialEq, Eq)]
pub enum BodyPlan {
    /// There is none.
    Empty,
    /// So many bytes, 1,048,576 at most.
    Sized(usize),
    /// Chunks, each behind its size.
    Chunked,
    /// All bytes up to the link's end.
    ToEnd,
    /// The head says nothing that is known here.
    Bad,
    /// More bytes than a body may have.
    TooLarge,
}

impl BodyPlan {
    ghost use Rattle.std.specs.Prelude.{◌≡◌};
    ghost use Rattle.http_reading.specs.Plans.{to_end};

    /// The same for a response, whose body goes to the link's end where its head says nothing.
    pub(crate) fn of_response(self) -> BodyPlan
        ensures { result ≡ to_end self }
    {
        match self {
            BodyPlan::Empty => BodyPlan::ToEnd,
            plan => plan,
        }
    }
}

/// The body of a head with this one length.
fn sized(value: &[u8]) -> BodyPlan
    ensures { result ≡ sized value.now }
{
    if value.is_empty() {
        return BodyPlan::Bad;
    }
    let mut length: usize = 0;
    for digit in value {
        if !digit.is_ascii_digit() {
            return BodyPlan::Bad;
        }
        length = (length * 10 + usize::from(*digit - b'0')).min(LONGEST_BODY + 1);
    }
    if length > LONGEST_BODY {
        return BodyPlan::TooLarge;
    }
    BodyPlan::Sized(length)
}

/// How the body behind a head with these fields is read.
pub(crate) fn plan_of(bytes: &[u8], headers: &[HeaderSpan]) -> BodyPlan
    requires { All (IsHeaderWithin (length bytes.now)) headers.now }
    ensures { result ≡ plan_of (map (header_bytes bytes.now) headers.now) }
{
    let lengths = values_of(bytes, headers, b"content-length");
    let codings = values_of(bytes, headers, b"transfer-encoding");
    match (lengths, codings) {
        (Found::None, Found::None) => BodyPlan::Empty,
        (Found::One(length), Found::None) => sized(length.of(bytes)),
        (Found::None, Found::One(coding)) => {
            if same_text(coding.of(bytes), b"chunked") {
                BodyPlan::Chunked
            } else {
                BodyPlan::Bad
            }
        }
        _ => BodyPlan::Bad,
    }
}
