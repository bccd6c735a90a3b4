//! An executor, one event at a time: prepare takes all the memory, commit makes the change.
ghost use Rattle.std.specs.Prelude.{◌≡◌, ◌+◌, ◌<◌, ◌≤◌, length, IfOk, OnOk, OnErr, false, ◌^◌, vec_len, vec_capacity};
ghost use Rattle.callback_spool.specs.Different.{HaveDifferentLogs};
ghost use Rattle.executor_history.specs.History.{Opening, is_refusal};
ghost use Rattle.executor_history.specs.Past.{parts_of};
ghost use Rattle.executor_history.specs.Replies.{reply_in};
ghost use Rattle.executor_history.specs.Runs.{is_cover, queued_run, is_ready, ready_front, run_on, put_working, working_run};
ghost use Rattle.executor_history.specs.Past.{covered_items};
ghost use Rattle.job_lane.specs.Runs.{without_first};
ghost use Rattle.executor_core.specs.Parts.{line_change, change_by, change_of, parts_after, HasRoomFor, CanCommit, StandsFor, Answers};

use super::add::{add_all, hold_all, release_all, take_out};
use super::change::{Change, PreparedRun};
use super::ids::Ids;
use super::items::{all_expired, all_killed, item_of};
use super::known::KnownLogs;
use super::replies::{
    batch_answer, covers, finish_answer, idle_answer, kept_answer, line_answer, lines_answer,
    poll_answer, run_answer, take_answer,
};
use super::runs::{enqueue, late_len};
use callback_spool::Callbacks;
use executor_history::Queued;
use job_events::{ExecutorEvent, ExecutorReply};
use job_lane::QueuedRun;
use job_values::{
    CallbackItem, HandlerName, JobId, LogId, LogLine, LogMoment, Moment, NoMemory, Run, RunnerNo,
    Seq,
};
use run_queues::Queues;
use std::alloc::Global;
use std::marker::Model;

/// An executor: its handlers, the runs that wait and those on runners, their results, and what is known of their logs.
#[derive(Drop)]
pub struct Executor {
    alloc: Global,
    handlers: Seq<HandlerName>,
    queues: Queues,
    callbacks: Callbacks,
    held: Ids,
    known: KnownLogs,
}

impl Model for Executor {
    ghost use Rattle.executor_core.specs.Parts.{Whole};

    ghost Value = { Whole };

    ghost view = { λ e. record {
      parts = record {
        handlers = e.handlers;
        runs = e.queues.last;
        queued = e.queues.runs;
        on_runners = e.queues.on_runners;
        waiting = e.callbacks.waiting;
        batch = e.callbacks.batch;
        spooled = e.callbacks.spooled;
        held = e.held.ids;
        known = e.known.known;
      };
      queues = e.queues;
      lines = e.known.lines;
      room = record {
        held = e.held.room;
        known = e.known.room;
        callbacks = e.callbacks.room;
      };
    } };
}

/// The run as it waits, with its place in order of acceptance.
fn queued_of(alloc: Global, run: &Run, number: u64) -> Result<Queued, NoMemory>
    ensures { IfOk result (λ q. q ≡ record { job = run.now.job; run = queued_run number run.now }) }
{
    Ok(Queued {
        job: run.job,
        run: QueuedRun {
            number,
            log: run.log,
            log_moment: run.log_moment,
            handler: run.handler.copy(alloc)?,
            param: run.param.copy(alloc)?,
            index: run.index,
            total: run.total,
            timeout: run.timeout,
        },
    })
}

/// What the held ids, the known logs and the lanes are told of a new run.
#[derive(Clone, Copy)]
struct Told {
    job: JobId,
    log: LogId,
    log_moment: LogMoment,
}

/// The same of a queued run.
fn told_of(new: &Queued) -> Told
    ensures job { result.job ≡ new.now.job }
    ensures log { result.log ≡ new.now.run.log }
    ensures log_moment { result.log_moment ≡ new.now.run.log_moment }
{
    Told {
        job: new.job,
        log: new.run.log,
        log_moment: new.run.log_moment,
    }
}

/// The change of an accepted Run.
fn queue_change(alloc: Global, run: &Run, runs: u64, queues: &Queues) -> Result<Change, NoMemory>
    requires { runs + 1 < 2 ^ 64 }
    ensures { IfOk result (λ c. c ≡ Change.Queue (record { job = run.now.job; run = queued_run (runs + 1) run.now }) (is_cover run.now) (covered_items run.now queues.now.runs)) }
{
    let new = queued_of(alloc, run, runs + 1)?;
    let cover = covers(run);
    let items = if cover {
        all_killed(alloc, run.job, queues)?
    } else {
        Seq::new(alloc)
    };
    Ok(Change::Queue(new, cover, items))
}

/// The change of a LogLine.
fn line_change_of(
    alloc: Global,
    runner: RunnerNo,
    line: &LogLine,
    queues: &Queues,
) -> Result<Change, NoMemory>
    ensures { IfOk result (λ c. c ≡ line_change (run_on runner queues.now.on_runners) line.now) }
{
    match queues.on(runner) {
        None => Ok(Change::Nothing),
        Some(working) => Ok(Change::Line(working.run.log, line.copy(alloc)?)),
    }
}

impl Executor {
    /// An executor with these handlers, whose kept items wait and whose ids are held.
    pub fn new(
        alloc: Global,
        handlers: Seq<HandlerName>,
        kept: Seq<CallbackItem>,
    ) -> Result<Executor, NoMemory>
        requires { HaveDifferentLogs kept }
        ensures { IfOk result (λ executor. StandsFor executor.parts (Opening handlers kept)) }
    {
        let mut held = Ids::new(alloc);
        hold_all(&mut held, kept.as_slice())?;
        let mut callbacks = Callbacks::new(alloc);
        callbacks.reserve(kept.len())?;
        add_all(&mut callbacks, kept.into_vec());
        Ok(Executor {
            alloc,
            handlers,
            queues: Queues::new(alloc),
            callbacks,
            held,
            known: KnownLogs::new(alloc),
        })
    }

    /// The reply of an event.
    fn reply_to(&self, event: &ExecutorEvent) -> Result<ExecutorReply, NoMemory>
        ensures { IfOk result (λ r. r ≡ reply_in self.now.parts event.now) }
    {
        let queues = &self.queues;
        match event {
            ExecutorEvent::Run(run, _) => Ok(run_answer(
                run,
                self.handlers.as_slice(),
                queues.last(),
                queues,
                &self.held,
            )),
            ExecutorEvent::Beat => Ok(ExecutorReply::Done),
            ExecutorEvent::IdleBeat(job) => Ok(idle_answer(*job, queues)),
            ExecutorEvent::Kill(job) => Ok(ExecutorReply::Killed(queues.len_of(*job))),
            ExecutorEvent::Poll(runner, _) => poll_answer(self.alloc, *runner, queues),
            ExecutorEvent::Finish(runner, _, code, _) => {
                Ok(finish_answer(*runner, *code, queues))
            }
            ExecutorEvent::Expire(at) => {
                let on_runners = queues.on_runners(self.alloc)?;
                Ok(ExecutorReply::Expired(late_len(*at, on_runners.as_slice())))
            }
            ExecutorEvent::LogLine(runner, _) => { Ok(line_answer(*runner, queues, &self.known)) }
            ExecutorEvent::ReadLines(log, first) => {
                lines_answer(self.alloc, *log, *first, queues, &self.known)
            }
            ExecutorEvent::Trim(at) => Ok(ExecutorReply::Trimmed(
                self.known.trimmed_len(*at, &self.held, queues),
            )),
            ExecutorEvent::BatchTake => take_answer(self.alloc, &self.callbacks),
            ExecutorEvent::BatchAck => Ok(batch_answer(&self.callbacks)),
            ExecutorEvent::BatchFail(_) => Ok(batch_answer(&self.callbacks)),
            ExecutorEvent::Reload => Ok(ExecutorReply::Reloaded(
                self.callbacks.spooled().len() as u64,
            )),
            ExecutorEvent::Kept => kept_answer(self.alloc, &self.callbacks),
        }
    }

    /// The change of an event that is accepted.
    fn change_for(&self, event: &ExecutorEvent) -> Result<Change, NoMemory>
        requires { is_refusal (reply_in self.now.parts event.now) ≡ false }
        ensures { IfOk result (λ c. c ≡ change_by self.now.parts event.now) }
    {
        let queues = &self.queues;
        match event {
            ExecutorEvent::Run(run, _) => queue_change(self.alloc, run, queues.last(), queues),
            ExecutorEvent::Kill(job) => {
                Ok(Change::Kill(*job, all_killed(self.alloc, *job, queues)?))
            }
            ExecutorEvent::Poll(runner, at) => Ok(Change::Poll(*runner, *at)),
            ExecutorEvent::Finish(runner, _, code, text) => Ok(Change::Finish(
                *runner,
                item_of(self.alloc, *runner, *code, text, queues)?,
            )),
            ExecutorEvent::Expire(at) => {
                Ok(Change::Expire(*at, all_expired(self.alloc, *at, queues)?))
            }
            ExecutorEvent::LogLine(runner, line) => {
                line_change_of(self.alloc, *runner, line, queues)
            }
            ExecutorEvent::Trim(at) => Ok(Change::Trim(*at)),
            ExecutorEvent::BatchTake => Ok(Change::Take),
            ExecutorEvent::BatchAck => Ok(Change::Ack),
            ExecutorEvent::BatchFail(saved) => Ok(Change::Fail(*saved)),
            ExecutorEvent::Reload => Ok(Change::Reload),
            ExecutorEvent::Beat
            | ExecutorEvent::IdleBeat(_)
            | ExecutorEvent::ReadLines(_, _)
            | ExecutorEvent::Kept => Ok(Change::Nothing),
        }
    }

    /// The change of an event that has this reply.
    fn change_to(&self, event: &ExecutorEvent, reply: &ExecutorReply) -> Result<Change, NoMemory>
        requires { reply.now ≡ reply_in self.now.parts event.now }
        ensures { IfOk result (λ c. c ≡ change_of self.now.parts event.now) }
    {
        if is_refused(reply) {
            return Ok(Change::Nothing);
        }
        self.change_for(event)
    }

    /// Makes room for all that a change adds.
    fn make_room(&mut self, change: &Change) -> Result<(), NoMemory>
        ensures parts { self.new.parts ≡ self.old.parts }
        ensures room { OnOk result (HasRoomFor self.new change.now) }
    {
        match change {
            Change::Queue(new, _, items) => {
                self.held.reserve()?;
                self.known.reserve()?;
                self.callbacks.reserve(items.len())?;
                self.queues.reserve(self.alloc, new.job)
            }
            Change::Kill(_, items) => self.callbacks.reserve(items.len()),
            Change::Finish(_, items) => self.callbacks.reserve(items.len()),
            Change::Expire(_, items) => self.callbacks.reserve(items.len()),
            Change::Poll(_, _) => self.queues.reserve_runner(),
            Change::Line(log, _) => self.known.reserve_line(*log),
            Change::Nothing
            | Change::Trim(_)
            | Change::Take
            | Change::Ack
            | Change::Fail(_)
            | Change::Reload => Ok(()),
        }
    }

    /// Puts an accepted run into its lane. There is room for it.
    fn queue(&mut self, new: Queued, cover: bool, items: Seq<CallbackItem>)
        requires { CanCommit self.old (Change.Queue new cover items) }
        ensures { self.new.parts ≡ parts_after self.old.parts (Change.Queue new cover items) }
    {
        let told = told_of(&new);
        let alloc = self.alloc;
        let items = items.into_vec();
        enqueue(new, cover, &mut self.queues);
        self.held.put(told.log);
        self.known.put(alloc, told.log, told.log_moment);
        add_all(&mut self.callbacks, items);
    }

    /// Makes a change. There is room for all that it adds.
    fn apply(&mut self, change: Change)
        requires { CanCommit self.old change }
        ensures { self.new.parts ≡ parts_after self.old.parts change }
    {
        match change {
            Change::Nothing => {}
            Change::Queue(new, cover, items) => self.queue(new, cover, items),
            Change::Kill(job, items) => {
                let items = items.into_vec();
                self.queues.kill(job);
                self.queues.forget(job);
                add_all(&mut self.callbacks, items);
            }
            Change::Poll(runner, at) => self.queues.give(runner, at),
            Change::Finish(runner, items) => {
                let items = items.into_vec();
                self.queues.leave(runner);
                add_all(&mut self.callbacks, items);
            }
            Change::Expire(at, items) => {
                let items = items.into_vec();
                self.queues.expire(at);
                add_all(&mut self.callbacks, items);
            }
            Change::Line(log, line) => self.known.push_line(log, line),
            Change::Trim(at) => {
                self.known.trim(at, &self.held, &self.queues);
            }
            Change::Take => take_out(&mut self.callbacks),
            Change::Ack => {
                release_all(&mut self.held, self.callbacks.batch());
                let _released = self.callbacks.ack();
            }
            Change::Fail(saved) => {
                let _failed = self.callbacks.fail_to(saved);
            }
            Change::Reload => {
                let _count = self.callbacks.reload();
            }
        }
    }

    /// Gets an event ready: its reply and its change, with all the memory that it takes. It changes nothing.
    pub fn prepare(&mut self, event: &ExecutorEvent) -> Result<PreparedRun, NoMemory>
        ensures parts { self.new.parts ≡ self.old.parts }
        ensures ready { IfOk result (λ prepared. CanCommit self.new prepared.change) }
        ensures right { IfOk result (λ prepared. Answers self.old.parts event.now prepared.reply (parts_after self.old.parts prepared.change)) }
    {
        let reply = self.reply_to(event)?;
        let change = self.change_to(event, &reply)?;
        self.make_room(&change)?;
        Ok(PreparedRun::new(reply, change))
    }

    /// Makes the change of the last prepare, and gives its reply. It takes no memory.
    pub fn commit(&mut self, prepared: PreparedRun) -> ExecutorReply
        requires { CanCommit self.old prepared.change }
        ensures parts { self.new.parts ≡ parts_after self.old.parts prepared.change }
        ensures reply { result ≡ prepared.reply }
    {
        let (reply, change) = prepared.into_parts();
        self.apply(change);
        reply
    }

    /// Takes an event: prepare and commit. A want of memory leaves it as it was.
    pub fn step(&mut self, event: &ExecutorEvent) -> Result<ExecutorReply, NoMemory>
        ensures answers { IfOk result (λ r. Answers self.old.parts event.now r self.new.parts) }
        ensures err { OnErr result (self.new.parts ≡ self.old.parts) }
    {
        let prepared = self.prepare(event)?;
        Ok(self.commit(prepared))
    }

    /// How many ids are held.
    pub fn held(&self) -> u64
        ensures { result ≡ length self.now.parts.held }
    {
        self.held.len() as u64
    }
}

/// Whether a reply is a refusal.
fn is_refused(reply: &ExecutorReply) -> bool
    ensures { result ≡ is_refusal reply.now }
{
    match reply {
        ExecutorReply::Refused(_) => true,
        _ => false,
    }
}
