//! The calls of a lane, with their answers.

use super::{Lane, QueuedRun};
use job_values::{BoundedText, JobId, LogId, LogMoment, Moment, RunnerNo, ShardNo, Text, Timeout};
use std::alloc::Global;
use std::test::Fail;

fn empty<const MOST: usize>(alloc: Global) -> Result<BoundedText<0, MOST>, Fail> {
    Ok(BoundedText::new(Text::copied(alloc, "")?).ok_or("a text")?)
}

fn queued(alloc: Global, number: u64, log: u64, timeout: u32) -> Result<QueuedRun, Fail> {
    Ok(QueuedRun {
        number,
        log: LogId::new(log).ok_or("a log id")?,
        log_moment: LogMoment::new(100_000).ok_or("a log moment")?,
        handler: empty(alloc)?,
        param: empty(alloc)?,
        index: ShardNo::new(0).ok_or("an index")?,
        total: ShardNo::new(1).ok_or("a total")?,
        timeout: Timeout::new(timeout).ok_or("a timeout")?,
    })
}

fn at(ms: u64) -> Result<Moment, Fail> {
    Ok(Moment::new(ms).ok_or("a moment")?)
}

fn runner(number: u8) -> Result<RunnerNo, Fail> {
    Ok(RunnerNo::new(number).ok_or("a runner")?)
}

/// A lane of job 1 with runs of logs 7 and 8, whose timeout is 5 seconds.
fn two_runs(alloc: Global) -> Result<Lane, Fail> {
    let mut lane = Lane::new(alloc, JobId::new(1).ok_or("a job id")?);
    lane.reserve()?;
    lane.offer(queued(alloc, 1, 7, 5)?);
    lane.reserve()?;
    lane.offer(queued(alloc, 2, 8, 5)?);
    Ok(lane)
}

/// The log of the run that a poll at 100000 gives to a runner, or 0.
fn polled(lane: &mut Lane, number: u8) -> Result<u64, Fail> {
    let to = runner(number)?;
    if lane.has(to) {
        return Ok(0);
    }
    match lane.poll(to, at(100_000)?) {
        None => Ok(0),
        Some(run) => Ok(run.log.get()),
    }
}

#[test]
fn lives_through_its_calls(rt: HostRuntime) -> Result<(), Fail> {
    let mut lane = two_runs(rt.alloc())?;
    assert_eq!(rt; lane.queue().len(), 2);
    assert_eq!(rt; polled(&mut lane, 3)?, 7);
    assert_eq!(rt; polled(&mut lane, 4)?, 0);
    assert_eq!(rt; lane.on_runners().len(), 1);
    assert_eq!(rt; lane.expire(at(104_999)?), 0);
    assert_eq!(rt; lane.expire(at(105_000)?), 1);
    assert_eq!(rt; lane.kill(), 1);
    let given = lane.finish(runner(3)?).ok_or("the run")?;
    assert_eq!(rt; given.given, true);
    Ok(())
}
