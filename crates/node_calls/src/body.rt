//! The bodies of answers.
ghost use Rattle.std.specs.Prelude.{◌≡◌};
ghost use Rattle.node_calls.specs.Bodies.{fixed_body, body_bytes};

use job_values::Seq;

/// The answers whose text is fixed.
#[derive(Clone, Copy, PartialEq, Eq)]
pub enum Fixed {
    /// The call is done.
    Done,
    /// The method is not POST.
    NotPost,
    /// The path is unknown.
    UnknownPath,
    /// The token is wrong.
    WrongToken,
    /// Memory ran out.
    NoMemory,
    NotBean,
    NoHandler,
    Discarded,
    HeldFull,
    Running,
    NoLines,
}

impl Fixed {
    /// The body.
    pub fn text(self) -> &'static [u8]
        ensures { result.now ≡ fixed_body self }
    {
        match self {
            Fixed::Done => b"{\"code\":200}",
            Fixed::NotPost => {
                b"{\"code\":500,\"msg\":\"invalid request, HttpMethod not support.\"}"
            }
            Fixed::UnknownPath => {
                b"{\"code\":500,\"msg\":\"invalid request, uri-mapping not found.\"}"
            }
            Fixed::WrongToken => b"{\"code\":500,\"msg\":\"The access token is wrong.\"}",
            Fixed::NoMemory => b"{\"code\":500,\"msg\":\"no memory\"}",
            Fixed::NotBean => b"{\"code\":500,\"msg\":\"glueType is not valid.\"}",
            Fixed::NoHandler => b"{\"code\":500,\"msg\":\"job handler not found.\"}",
            Fixed::Discarded => {
                b"{\"code\":500,\"msg\":\"block strategy effect: Discard Later\"}"
            }
            Fixed::HeldFull => b"{\"code\":500,\"msg\":\"too many held logs.\"}",
            Fixed::Running => {
                b"{\"code\":500,\"msg\":\"job thread is running or has trigger queue.\"}"
            }
            Fixed::NoLines => b"{\"code\":500,\"msg\":\"log not found.\"}",
        }
    }
}

/// The body of an answer: one that is fixed, which takes no memory, or one that was made.
#[derive(Drop)]
pub enum Body {
    Fixed(Fixed),
    Made(Seq<u8>),
}

impl Body {
    /// Its bytes.
    pub fn as_slice(&self) -> &[u8]
        ensures { result.now ≡ body_bytes self.now }
    {
        match self {
            Body::Fixed(fixed) => fixed.text(),
            Body::Made(bytes) => bytes.as_slice(),
        }
    }
}

/// What a request is answered.
#[derive(Drop)]
pub struct Answer {
    pub body: Body,
    /// Whether the node is stopped, so that the link is closed behind it.
    pub last: bool,
}
