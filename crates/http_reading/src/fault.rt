//! Why bytes are no request or response, or could not be read.

use thiserror::Error;

/// The first fault of a message, as its bytes come. Places and counts are in bytes from the message's
/// first byte, which has place 0.
#[derive(Clone, Copy, Debug, PartialEq, Eq, Error)]
pub enum HttpFault {
    /// The link ended inside the message, of which so many bytes were taken. On a faulted buffer
    /// `taken` is 0.
    #[error("the link ended after {taken} bytes")]
    Ended { taken: usize },
    /// The head is none of HTTP/1.0 or HTTP/1.1.
    #[error("bad head")]
    BadHead,
    /// The head has more than 16,384 bytes or 64 fields, the line before a chunk more than 16,384
    /// bytes, or the body more than 1,048,576.
    #[error("too large")]
    TooLarge,
    /// The head says in no known way how its body is read (the place is the head's length), or the
    /// byte at this place is the first with which the body is not chunked.
    #[error("bad body at {place}")]
    BadBody { place: usize },
    /// The link failed.
    #[error("the link failed")]
    LinkFault,
    /// Memory ran out.
    #[error("no memory")]
    NoMemory,
}
