//! What is counted of a history.

/// What is counted of a history. Each count stays at its greatest value once it is there.
#[derive(Clone, Copy, PartialEq, Eq)]
pub struct Report {
    /// Lines taken.
    pub entries: u64,
    /// Job rows.
    pub jobs: u64,
    /// Log rows.
    pub logs: u64,
    /// Logs with a result.
    pub settled: u64,
    /// Failed logs, marked or not.
    pub failed: u64,
    /// Tickets in all rings.
    pub waiting: u64,
    /// Logs in all pools.
    pub queued: u64,
    /// Held ids of all executors.
    pub held: u64,
}
