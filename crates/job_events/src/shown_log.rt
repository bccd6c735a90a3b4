//! What is shown of a log.

use job_values::{
    Address, GroupId, HandlerName, JobId, LogId, Moment, ParamText, ResultText, Retries, ShardNo,
    TriggerKind,
};

/// What is shown of a log.
#[derive(Drop)]
pub struct ShownLog {
    pub log: LogId,
    pub job: JobId,
    pub group: GroupId,
    /// Where it was sent.
    pub address: Option<Address>,
    pub handler: HandlerName,
    pub param: ParamText,
    pub index: ShardNo,
    pub total: ShardNo,
    pub retries: Retries,
    pub kind: TriggerKind,
    /// When it was opened.
    pub time: Moment,
    pub trigger_code: i32,
    pub result_time: Option<Moment>,
    pub result_code: i32,
    pub result_text: ResultText,
    /// Whether it was looked at as a failed one.
    pub marked: bool,
}
