//! What is kept of a log.

use job_values::{LogLine, LogMoment};

/// What is kept of a log whose run was accepted, since its lines were last trimmed.
#[derive(Drop)]
pub struct KnownRow {
    /// The moment of its last run.
    pub moment: LogMoment,
    /// From number 1 on.
    pub lines: Vec<LogLine>,
}
