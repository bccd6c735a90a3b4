//! Lines of the worked rows: their events, and what is said of their replies.
use job_events::{ExecutorEvent, ExecutorRefusal, ExecutorReply, FinishCode};
use job_values::{
    BoundedText, CallbackItem, JobId, LineNo, LogId, LogMoment, Moment, Run, RunnerNo, Seq,
    ShardNo, Text, Timeout,
};
use std::alloc::Global;
use std::process::Abort;
use std::test::Fail;

/// A line of a worked row. Every run is of job 1, and named by its log; moments are in milliseconds.
#[derive(Clone, Copy)]
pub enum Line {
    /// A run with a block rule.
    Run(u64, &'static str, u64),
    /// One that may last five seconds.
    Limited(u64, &'static str, u64),
    Idle,
    Kill,
    Poll(u8, u64),
    Finish(u8, u64),
    Expire(u64),
    /// The lines of a log, from a number on.
    Read(u64, u32),
    Take,
    Ack,
    Fail(bool),
    Reload,
    Kept,
}

pub fn text<const MOST: usize>(
    rt: &impl Abort,
    alloc: Global,
    text: &str,
) -> Result<BoundedText<0, MOST>, Fail> {
    Ok(BoundedText::new(Text::copied(alloc, text)?).expect(rt, "a text"))
}

fn at(rt: &impl Abort, ms: u64) -> Moment {
    Moment::new(ms).expect(rt, "a moment")
}

fn log(rt: &impl Abort, number: u64) -> LogId {
    LogId::new(number).expect(rt, "a log id")
}

fn job(rt: &impl Abort) -> JobId {
    JobId::new(1).expect(rt, "a job id")
}

fn runner(rt: &impl Abort, number: u8) -> RunnerNo {
    RunnerNo::new(number).expect(rt, "a runner")
}

/// A run of job 1, with the handler `demo` and the glue type `BEAN`, that may last as long as it will.
fn asked(rt: &impl Abort, alloc: Global, of: u64, block: &str) -> Result<Run, Fail> {
    Ok(Run {
        job: job(rt),
        log: log(rt, of),
        handler: text(rt, alloc, "demo")?,
        param: text(rt, alloc, "")?,
        block: text(rt, alloc, block)?,
        glue: text(rt, alloc, "BEAN")?,
        timeout: Timeout::new(0).expect(rt, "a timeout"),
        log_moment: LogMoment::new(100_000).expect(rt, "a log moment"),
        index: ShardNo::new(0).expect(rt, "an index"),
        total: ShardNo::new(1).expect(rt, "a total"),
    })
}

/// The event of a line.
pub fn event(rt: &impl Abort, alloc: Global, line: &Line) -> Result<ExecutorEvent, Fail> {
    Ok(match line {
        Line::Run(of, block, ms) => {
            ExecutorEvent::Run(asked(rt, alloc, *of, block)?, at(rt, *ms))
        }
        Line::Limited(of, block, ms) => {
            let mut run = asked(rt, alloc, *of, block)?;
            run.timeout = Timeout::new(5).expect(rt, "a timeout");
            ExecutorEvent::Run(run, at(rt, *ms))
        }
        Line::Idle => ExecutorEvent::IdleBeat(job(rt)),
        Line::Kill => ExecutorEvent::Kill(job(rt)),
        Line::Poll(number, ms) => ExecutorEvent::Poll(runner(rt, *number), at(rt, *ms)),
        Line::Finish(number, ms) => ExecutorEvent::Finish(
            runner(rt, *number),
            at(rt, *ms),
            FinishCode::Success,
            text(rt, alloc, "")?,
        ),
        Line::Expire(ms) => ExecutorEvent::Expire(at(rt, *ms)),
        Line::Read(of, first) => ExecutorEvent::ReadLines(
            log(rt, *of),
            LineNo::new(*first).expect(rt, "a line number"),
        ),
        Line::Take => ExecutorEvent::BatchTake,
        Line::Ack => ExecutorEvent::BatchAck,
        Line::Fail(saved) => ExecutorEvent::BatchFail(*saved),
        Line::Reload => ExecutorEvent::Reload,
        Line::Kept => ExecutorEvent::Kept,
    })
}

/// What a row says of a reply. Runs and items are named by their logs, items with their codes.
#[derive(Clone, Copy)]
pub enum Said {
    Done,
    Queued(u64),
    Killed(u64),
    Runs(u64),
    Item(u64, i32),
    NoItem(u64),
    Expired(u64),
    Batch(&'static [(u64, i32)]),
    Reloaded(u64),
    Kept(&'static [(u64, i32)]),
    Held(u64),
    Discarded,
    Running,
    RunnerBusy(u64),
    Nothing,
    BatchOut,
    NoBatch,
    NoLines,
}

fn are_said(items: &Seq<CallbackItem>, said: &[(u64, i32)]) -> bool {
    let items = items.as_slice();
    items.len() == said.len()
        && items.iter().zip(said).all(|(item, said)| item.log.get() == said.0
            && item.code == said.1)
}

fn is_refused(why: &ExecutorRefusal, said: &Said) -> bool {
    match (why, said) {
        (ExecutorRefusal::Held(log), Said::Held(of)) => log.get() == *of,
        (ExecutorRefusal::RunnerBusy(log), Said::RunnerBusy(of)) => log.get() == *of,
        (ExecutorRefusal::Discarded, Said::Discarded) => true,
        (ExecutorRefusal::Running, Said::Running) => true,
        (ExecutorRefusal::Nothing, Said::Nothing) => true,
        (ExecutorRefusal::BatchOut, Said::BatchOut) => true,
        (ExecutorRefusal::NoBatch, Said::NoBatch) => true,
        (ExecutorRefusal::NoLines, Said::NoLines) => true,
        _ => false,
    }
}

/// Whether a reply is the one that a row says.
pub fn is_said(reply: &ExecutorReply, said: &Said) -> bool {
    match (reply, said) {
        (ExecutorReply::Refused(why), _) => is_refused(why, said),
        (ExecutorReply::Done, Said::Done) => true,
        (ExecutorReply::Queued(count), Said::Queued(of)) => count == of,
        (ExecutorReply::Killed(count), Said::Killed(of)) => count == of,
        (ExecutorReply::Runs(polled), Said::Runs(of)) => polled.log.get() == *of,
        (ExecutorReply::Item(log, code), Said::Item(of, is)) => log.get() == *of && code == is,
        (ExecutorReply::NoItem(log), Said::NoItem(of)) => log.get() == *of,
        (ExecutorReply::Expired(count), Said::Expired(of)) => count == of,
        (ExecutorReply::Batch(items), Said::Batch(of)) => are_said(items, of),
        (ExecutorReply::Reloaded(count), Said::Reloaded(of)) => count == of,
        (ExecutorReply::Kept(items), Said::Kept(of)) => are_said(items, of),
        _ => false,
    }
}
