//! What a taken log is to run.

use job_values::{Block, Choice, HandlerName, JobId, LogId, Moment, ParamText, ShardNo, Timeout};

/// What a taken log is to run, and where.
#[derive(Drop)]
pub struct Order {
    pub log: LogId,
    pub job: JobId,
    pub handler: HandlerName,
    pub param: ParamText,
    pub block: Block,
    pub timeout: Timeout,
    /// When the log was opened.
    pub log_moment: Moment,
    pub index: ShardNo,
    pub total: ShardNo,
    pub choice: Choice,
}
