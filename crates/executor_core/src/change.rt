//! What an event changes, with all that it adds already made.
ghost use Rattle.std.specs.Prelude.{◌≡◌};

use executor_history::Queued;
use job_events::ExecutorReply;
use job_values::{CallbackItem, JobId, LogId, LogLine, Moment, RunnerNo, Seq};
use std::marker::Model;

/// The change of an accepted event.
#[derive(Drop)]
pub enum Change {
    Nothing,
    /// A run waits, whether it covers the earlier ones of its job, and the items of those that it covers.
    Queue(Queued, bool, Seq<CallbackItem>),
    /// The runs of a job are ended, with the items of the queued ones.
    Kill(JobId, Seq<CallbackItem>),
    /// The ready front goes on a runner.
    Poll(RunnerNo, Moment),
    /// A runner is free, with the item of its run, if there is one.
    Finish(RunnerNo, Seq<CallbackItem>),
    /// The late runs get their results, which are these items.
    Expire(Moment, Seq<CallbackItem>),
    /// A log gets a line.
    Line(LogId, LogLine),
    /// Old logs are dropped.
    Trim(Moment),
    /// A batch is taken.
    Take,
    /// The batch is acknowledged.
    Ack,
    /// The batch failed, and whether its items were saved.
    Fail(bool),
    /// The spooled items wait again.
    Reload,
}

/// An event that is ready to be committed: its reply, and its change. Only `Executor::prepare` makes one.
#[derive(Drop)]
pub struct PreparedRun {
    reply: ExecutorReply,
    change: Change,
}

impl Model for PreparedRun {
    ghost use Rattle.executor_core.specs.Parts.{Prepared};

    ghost Value = { Prepared };

    ghost view = { λ p. record { reply = p.reply; change = p.change } };
}

impl PreparedRun {
    /// A reply, and the change that goes with it.
    pub(crate) fn new(reply: ExecutorReply, change: Change) -> PreparedRun
        ensures { result ≡ record { reply = reply; change = change } }
    {
        PreparedRun { reply, change }
    }

    /// The reply that the commit will give.
    pub fn reply(&self) -> &ExecutorReply
        ensures { result.now ≡ self.now.reply }
    {
        &self.reply
    }

    /// The reply and the change.
    pub(crate) fn into_parts(self) -> (ExecutorReply, Change)
        ensures { result ≡ (self.reply, self.change) }
    {
        (self.reply, self.change)
    }
}
