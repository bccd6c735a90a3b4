//! What a dialer tells of a dial.

use job_values::{Seq, Text};

/// A dial: its host and port, whether it failed, and what its link showed when it was hung up.
#[derive(Drop)]
pub struct Dialed {
    pub host: Text,
    pub port: u16,
    pub failed: bool,
    pub shown: Option<Shown>,
}

/// What a link told when it was hung up: the bytes written and read, whether its end was met, and
/// whether it failed.
#[derive(Drop)]
pub struct Shown {
    pub written: Seq<u8>,
    pub read: Seq<u8>,
    pub met: bool,
    pub faulted: bool,
}
