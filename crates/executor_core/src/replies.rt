//! The replies of the events, by what an executor keeps.
ghost use Rattle.std.specs.Prelude.{◌≡◌, ◌+◌, ◌-◌, ◌≤◌, ◌++◌, [], ◌∷◌, length, drop, take, max, IfOk, ◌^◌, codes, Some, ◌<◌};
ghost use Rattle.std.specs.List.{list_any};
ghost use Rattle.std.specs.Str.{bytes_eq};
ghost use Rattle.std.specs.Option.{option_copied};
ghost use Rattle.std.specs.VecDeque.{deque_len};
ghost use Rattle.executor_history.specs.History.{is_refusal};
ghost use Rattle.executor_history.specs.Runs.{is_cover, is_discard, is_busy, ready_front, run_on};
ghost use Rattle.executor_history.specs.Replies.{run_reply, idle_reply, poll_reply, given_reply, finish_reply, line_reply, lines_reply, lines_from, take_reply, batch_reply, is_ended, is_full, has_room};
ghost use Rattle.executor_history.specs.Past.{known_of};
ghost use Rattle.run_queues.specs.Order.{queued_in};

use super::add::copy_first;
use super::ids::Ids;
use super::items::finish_code;
use super::known::KnownLogs;
use super::runs::{busy, ended};
use callback_spool::Callbacks;
use callback_spool::batch::fitting_items;
use job_events::{ExecutorRefusal, ExecutorReply, FinishCode, PolledRun, ReadLines};
use job_lane::QueuedRun;
use job_values::limits::{FAILURE, HELD_IDS, LINES_READ, LOG_LINES};
use job_values::{HandlerName, JobId, LineNo, LogId, LogLine, NoMemory, Run, RunnerNo, Seq};
use run_queues::Queues;
use std::alloc::Global;

/// Whether the executor has this handler.
fn has_handler(run: &Run, handlers: &[HandlerName]) -> bool
    ensures { result ≡ list_any (bytes_eq run.now.handler) handlers.now }
{
    handlers
        .iter()
        .any(|name| run.handler.as_str() == name.as_str())
}

/// Whether the run covers the earlier ones of its job.
pub fn covers(run: &Run) -> bool
    ensures { result ≡ is_cover run.now }
{
    run.block.as_str() == "COVER_EARLY"
}

/// Whether the run gives way to the earlier ones of its job.
fn discards(run: &Run) -> bool
    ensures { result ≡ is_discard run.now }
{
    run.block.as_str() == "DISCARD_LATER"
}

/// Whether only `BEAN` is asked for.
fn is_bean(run: &Run) -> bool
    ensures { result ≡ bytes_eq run.now.glue (codes "BEAN") }
{
    run.glue.as_str() == "BEAN"
}

/// Whether no more runs are taken.
fn full(runs: u64, held: &Ids) -> bool
    ensures { result ≡ is_full runs held.now.ids }
{
    HELD_IDS <= held.len() || runs == u64::MAX
}

/// The reply of a Run.
pub fn run_answer(
    run: &Run,
    handlers: &[HandlerName],
    runs: u64,
    queues: &Queues,
    held: &Ids,
) -> ExecutorReply
    ensures { result ≡ run_reply run.now handlers.now runs queues.now.runs queues.now.on_runners held.now.ids }
{
    if held.contains(run.log) {
        return ExecutorReply::Refused(ExecutorRefusal::Held(run.log));
    }
    if !is_bean(run) {
        return ExecutorReply::Refused(ExecutorRefusal::NotBean);
    }
    if !has_handler(run, handlers) {
        return ExecutorReply::Refused(ExecutorRefusal::NoHandler);
    }
    if discards(run) && busy(run.job, queues) {
        return ExecutorReply::Refused(ExecutorRefusal::Discarded);
    }
    if full(runs, held) {
        return ExecutorReply::Refused(ExecutorRefusal::HeldFull);
    }
    if covers(run) {
        return ExecutorReply::Queued(queues.len_of(run.job));
    }
    ExecutorReply::Queued(0)
}

/// The reply of an IdleBeat.
pub fn idle_answer(job: JobId, queues: &Queues) -> ExecutorReply
    ensures { result ≡ idle_reply (is_busy job queues.now.runs queues.now.on_runners) }
{
    if busy(job, queues) {
        ExecutorReply::Refused(ExecutorRefusal::Running)
    } else {
        ExecutorReply::Done
    }
}

/// The run that a runner is given.
fn polled_run(alloc: Global, job: JobId, run: &QueuedRun) -> Result<PolledRun, NoMemory>
    ensures { IfOk result (λ polled. ExecutorReply.Runs polled ≡ given_reply (Some (queued_in job run.now))) }
{
    Ok(PolledRun {
        log: run.log,
        job,
        handler: run.handler.copy(alloc)?,
        param: run.param.copy(alloc)?,
        index: run.index,
        total: run.total,
    })
}

/// The reply of a Poll by a free runner.
fn given_answer(alloc: Global, queues: &Queues) -> Result<ExecutorReply, NoMemory>
    ensures { IfOk result (λ r. r ≡ given_reply (ready_front queues.now.runs queues.now.on_runners)) }
{
    match queues.front() {
        None => Ok(ExecutorReply::Refused(ExecutorRefusal::Nothing)),
        Some((job, run)) => Ok(ExecutorReply::Runs(polled_run(alloc, job, run)?)),
    }
}

/// The reply of a Poll.
pub fn poll_answer(
    alloc: Global,
    runner: RunnerNo,
    queues: &Queues,
) -> Result<ExecutorReply, NoMemory>
    ensures { IfOk result (λ r. r ≡ poll_reply (run_on runner queues.now.on_runners) (ready_front queues.now.runs queues.now.on_runners)) }
{
    match queues.on(runner) {
        None => given_answer(alloc, queues),
        Some(working) => Ok(ExecutorReply::Refused(ExecutorRefusal::RunnerBusy(working.run.log))),
    }
}

/// The reply of a Finish.
pub fn finish_answer(runner: RunnerNo, code: FinishCode, queues: &Queues) -> ExecutorReply
    ensures { result ≡ finish_reply code (run_on runner queues.now.on_runners) }
{
    match queues.on(runner) {
        None => ExecutorReply::Refused(ExecutorRefusal::NotRunning),
        Some(working) => {
            if working.run.given {
                return ExecutorReply::NoItem(working.run.log);
            }
            if working.run.ended {
                return ExecutorReply::Item(working.run.log, FAILURE);
            }
            ExecutorReply::Item(working.run.log, finish_code(code))
        }
    }
}

/// The reply of a BatchAck and of a BatchFail.
pub fn batch_answer(callbacks: &Callbacks) -> ExecutorReply
    ensures { result ≡ batch_reply callbacks.now.batch }
{
    if callbacks.batch().is_empty() {
        ExecutorReply::Refused(ExecutorRefusal::NoBatch)
    } else {
        ExecutorReply::Done
    }
}

/// The reply of a BatchTake.
pub fn take_answer(alloc: Global, callbacks: &Callbacks) -> Result<ExecutorReply, NoMemory>
    ensures { IfOk result (λ r. r ≡ take_reply callbacks.now.waiting callbacks.now.batch) }
{
    if !callbacks.batch().is_empty() {
        return Ok(ExecutorReply::Refused(ExecutorRefusal::BatchOut));
    }
    if callbacks.waiting().is_empty() {
        return Ok(ExecutorReply::Refused(ExecutorRefusal::Nothing));
    }
    let mut items = Seq::new(alloc);
    let count = fitting_items(callbacks.waiting());
    copy_first(alloc, &mut items, callbacks.waiting(), count)?;
    Ok(ExecutorReply::Batch(items))
}

/// The reply of a Kept.
pub fn kept_answer(alloc: Global, callbacks: &Callbacks) -> Result<ExecutorReply, NoMemory>
    ensures { IfOk result (λ r. r ≡ ExecutorReply.Kept (callbacks.now.batch ++ callbacks.now.spooled ++ callbacks.now.waiting)) }
{
    let mut items = Seq::new(alloc);
    copy_first(
        alloc,
        &mut items,
        callbacks.batch(),
        callbacks.batch().len(),
    )?;
    copy_first(
        alloc,
        &mut items,
        callbacks.spooled(),
        callbacks.spooled().len(),
    )?;
    copy_first(
        alloc,
        &mut items,
        callbacks.waiting(),
        callbacks.waiting().len(),
    )?;
    Ok(ExecutorReply::Kept(items))
}

/// The reply of a LogLine.
pub fn line_answer(runner: RunnerNo, queues: &Queues, known: &KnownLogs) -> ExecutorReply
    ensures { result ≡ line_reply (run_on runner queues.now.on_runners) known.now.known }
{
    match queues.on(runner) {
        None => ExecutorReply::Refused(ExecutorRefusal::NotRunning),
        Some(working) => {
            if takes_line(known, working.run.log) {
                ExecutorReply::Done
            } else {
                ExecutorReply::Refused(ExecutorRefusal::LinesFull)
            }
        }
    }
}

/// Whether a log may have one more line.
fn takes_line(known: &KnownLogs, log: LogId) -> bool
    ensures { result ≡ has_room (known_of log known.now.known) }
{
    match known.find(log) {
        None => true,
        Some(row) => row.lines.len() < LOG_LINES,
    }
}

/// These lines from a number on, no more than are read at once.
fn some_lines(alloc: Global, lines: &[LogLine], first: u64) -> Result<Seq<LogLine>, NoMemory>
    requires least { 1 ≤ first }
    requires most { first < 2 ^ 32 }
    ensures { IfOk result (λ some. some ≡ lines_from first lines.now) }
{
    let at = (first - 1) as usize;
    let mut some = Seq::new(alloc);
    for count in 0..LINES_READ {
        let past = lines.len() <= at + count;
        if past {
            return Ok(some);
        }
        some.push(lines[at + count].copy(alloc)?)?;
    }
    Ok(some)
}

/// The reply of a ReadLines.
pub fn lines_answer(
    alloc: Global,
    log: LogId,
    first: LineNo,
    queues: &Queues,
    known: &KnownLogs,
) -> Result<ExecutorReply, NoMemory>
    ensures { IfOk result (λ r. r ≡ lines_reply (max first 1) (is_ended log queues.now.runs queues.now.on_runners) (known_of log known.now.known)) }
{
    let from = u64::from(first.get()).max(1);
    match known.find(log) {
        None => Ok(ExecutorReply::Refused(ExecutorRefusal::NoLines)),
        Some(row) => {
            let lines = some_lines(alloc, row.lines.as_slice(), from)?;
            Ok(ExecutorReply::Lines(ReadLines {
                from,
                to: from - 1 + lines.len() as u64,
                is_end: ended(log, queues),
                lines,
            }))
        }
    }
}
