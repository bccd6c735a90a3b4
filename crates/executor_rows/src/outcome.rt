//! What a connection comes to.

use executor_node::ExecutorEnd;
use job_values::NoMemory;
use std::alloc::Global;

/// How many requests were read, how many entries they made, how the connection ended, and what was written.
#[derive(Drop)]
pub struct Outcome {
    pub requests: u64,
    pub entries: u64,
    pub end: ExecutorEnd,
    pub written: Vec<u8>,
}

impl Outcome {
    /// A connection without requests that ends so.
    pub fn new(alloc: Global, end: ExecutorEnd) -> Outcome {
        Outcome {
            requests: 0,
            entries: 0,
            end,
            written: Vec::new(alloc),
        }
    }

    /// One request more, which made an entry or none.
    pub fn count(&mut self, is_entry: bool) {
        self.requests = self.requests.saturating_add(1);
        self.entries = self.entries.saturating_add(is_entry as u64);
    }

    /// More bytes that are written.
    pub fn write(&mut self, bytes: &[u8]) -> Result<(), NoMemory> {
        self.written.extend_from_slice(bytes)?;
        Ok(())
    }

    pub fn is(&self, other: &Outcome) -> bool {
        self.requests == other.requests
            && self.entries == other.entries
            && self.end == other.end
            && self.written.as_slice() == other.written.as_slice()
    }
}
