//! HTTP requests and responses, read from a link in any pieces: heads by `httparse`, bodies with a
//! length, in chunks or to the link's end, and the first fault of bytes that are none.
#![tactic(auto)]

mod body;
mod chunks;
mod close;
mod fault;
mod fields;
mod fill;
mod head;
mod laws;
mod piece;
mod plan;
mod request;
mod response;
mod size_line;
#[cfg(test)]
mod tests;
mod top;

pub use fault::HttpFault;
pub use laws::{law_no_fault, law_numbers, law_one_fault, law_one_request};
pub use plan::{BodyPlan, MOST_FIELDS, MOST_LINE};
pub use request::{HttpBuffer, Request, read_request};
pub use response::{Response, read_response};
