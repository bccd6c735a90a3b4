//! Both ends of HTTP: requests and responses read from links, responses written, and requests asked of
//! an address.
#![tactic(auto)]

mod address;
mod asking;
mod laws;
#[cfg(test)]
mod tests;
mod writing;

pub use address::is_address;
pub use asking::{AskFault, ask};
pub use http_reading::{HttpBuffer, HttpFault, Request, Response, read_request};
pub use laws::law_one_address;
pub use writing::write_response;
