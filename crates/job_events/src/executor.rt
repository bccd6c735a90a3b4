//! The events of an executor, their replies and their refusals.

use job_values::{
    CallbackItem, HandlerName, JobId, LineNo, LogId, LogLine, Moment, ResultText, Run, RunParam,
    RunnerNo, Seq, ShardNo,
};

/// What a handler's run ended with.
#[derive(Clone, Copy, PartialEq, Eq)]
pub enum FinishCode {
    /// 200.
    Success,
    /// 500.
    Failure,
}

/// What happens to an executor.
#[derive(Drop)]
pub enum ExecutorEvent {
    /// A run is asked for, at a moment.
    Run(Run, Moment),
    /// Whether it is there.
    Beat,
    /// Whether the job neither runs nor waits here.
    IdleBeat(JobId),
    /// The runs of a job are ended.
    Kill(JobId),
    /// A free runner asks for a run, at a moment.
    Poll(RunnerNo, Moment),
    /// The handler on a runner returned, at a moment.
    Finish(RunnerNo, Moment, FinishCode, ResultText),
    /// The runs that last too long at a moment are given their result.
    Expire(Moment),
    /// The run on a runner writes a line.
    LogLine(RunnerNo, LogLine),
    /// The lines of a log are read, from a number on.
    ReadLines(LogId, LineNo),
    /// Lines of old logs are dropped.
    Trim(Moment),
    /// A batch of results is taken.
    BatchTake,
    /// The batch was taken by an admin.
    BatchAck,
    /// The batch was not; whether its items were saved.
    BatchFail(bool),
    /// The saved items wait again.
    Reload,
    /// The items that a save would keep.
    Kept,
}

/// Lines of a log.
#[derive(Drop)]
pub struct ReadLines {
    /// The number of the first line.
    pub from: u64,
    /// The number of the last line that is given, or `from - 1`.
    pub to: u64,
    /// Whether no run of the log is queued or on a runner.
    pub is_end: bool,
    pub lines: Seq<LogLine>,
}

/// A run that is given to a runner.
#[derive(Drop)]
pub struct PolledRun {
    pub log: LogId,
    pub job: JobId,
    pub handler: HandlerName,
    pub param: RunParam,
    pub index: ShardNo,
    pub total: ShardNo,
}

/// The answer to an event.
#[derive(Drop)]
pub enum ExecutorReply {
    /// It is done.
    Done,
    /// The run is queued, and this many queued ones were ended.
    Queued(u64),
    /// This many queued runs were ended.
    Killed(u64),
    /// The run that a runner was given.
    Runs(PolledRun),
    /// The result of the run that ended: its log and its code.
    Item(LogId, i32),
    /// The run that ended had its result before.
    NoItem(LogId),
    /// This many runs were given their result.
    Expired(u64),
    /// Lines of a log.
    Lines(ReadLines),
    /// The lines of this many logs were dropped.
    Trimmed(u64),
    /// The batch that was taken.
    Batch(Seq<CallbackItem>),
    /// This many saved items wait again.
    Reloaded(u64),
    /// The items of the batch, the saved ones and the waiting ones.
    Kept(Seq<CallbackItem>),
    /// It was refused, and changed nothing.
    Refused(ExecutorRefusal),
}

/// Why an event was refused.
#[derive(Clone, Copy, PartialEq, Eq)]
pub enum ExecutorRefusal {
    /// The log id is held.
    Held(LogId),
    /// The glue type is not `BEAN`.
    NotBean,
    /// No handler has the name.
    NoHandler,
    /// The job runs or has a queue, and its block rule discards.
    Discarded,
    /// Too many ids are held, or too many runs were taken.
    HeldFull,
    /// The job runs or has a queue.
    Running,
    /// The runner has a run of this log.
    RunnerBusy(LogId),
    /// No lane is ready; no item waits.
    Nothing,
    /// The runner has no run.
    NotRunning,
    /// The log has as many lines as it may.
    LinesFull,
    /// Nothing is known of the log.
    NoLines,
    /// A batch is out.
    BatchOut,
    /// No batch is out.
    NoBatch,
}
