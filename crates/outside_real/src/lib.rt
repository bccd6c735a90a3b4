//! What lies outside the scheduler, for real: the standard streams, TCP, the clock, random words, and a file
//! that keeps results. Programs alone stand on it; everything else takes any source, sink, link, listener,
//! dialer, clock, words or spool.
#![tactic(auto)]

mod file_spool;
mod listening;
mod random_words;
mod streams;
mod system_clock;
mod tcp;

pub use file_spool::FileSpool;
pub use listening::TcpPort;
pub use random_words::RandomWords;
pub use streams::{StreamSink, StreamSource};
pub use system_clock::SystemClock;
pub use tcp::{TcpAddress, TcpDialer, TcpLink};

#[cfg(test)]
mod tests;
