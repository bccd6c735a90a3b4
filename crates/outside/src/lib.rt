//! What lies outside the scheduler, one trait each, with the forms in memory that tests use. Every object
//! counts its faults, and a call fails only where that count rose.
#![tactic(auto)]

mod clock;
mod dialed;
mod dialer;
mod failed;
mod kept_dials;
mod link;
mod sink;
mod source;
mod spool;

pub use clock::{Clock, MemoryClock};
pub use dialed::{Dialed, Shown};
pub use dialer::{BytesDialer, Dialer, MemoryDialer};
pub use failed::Failed;
pub use link::{BytesLink, Link, MemoryLink, send};
pub use sink::{BytesSink, MemorySink, Sink, write_whole};
pub use source::{BytesSource, MemorySource, Source};
pub use spool::{MemorySpool, Spool, SpoolError};
