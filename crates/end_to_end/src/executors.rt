//! The worked rows: events, and what each is answered.
use super::executor_lines::{Line, Said, event, is_said, text};
use executor_core::Executor;
use job_values::{CallbackItem, HandlerName, Seq};
use std::alloc::Global;
use std::process::Abort;
use std::test::Fail;

/// An executor with the one handler `demo`, after these lines, each of which gave this reply.
fn played(rt: &impl Abort, alloc: Global, lines: &[(Line, Said)]) -> Result<Executor, Fail> {
    let mut handlers: Seq<HandlerName> = Seq::new(alloc);
    handlers.push(text(rt, alloc, "demo")?)?;
    let kept: Seq<CallbackItem> = Seq::new(alloc);
    let mut executor = Executor::new(alloc, handlers, kept)?;
    go_on(rt, alloc, &mut executor, lines)?;
    Ok(executor)
}

/// Plays these lines, each of which gives this reply.
fn go_on(
    rt: &impl Abort,
    alloc: Global,
    executor: &mut Executor,
    lines: &[(Line, Said)],
) -> Result<(), Fail> {
    for (line, reply) in lines {
        let event = event(rt, alloc, line)?;
        assert!(rt; is_said(&executor.step(&event)?, reply));
    }
    Ok(())
}

/// A copy of a run is refused until its result was taken.
#[test]
fn cover_with_a_copy(rt: HostRuntime) -> Result<(), Fail> {
    let alloc = rt.alloc();
    let mut executor = played(
        &rt,
        alloc,
        &[
            (Line::Run(1, "COVER_EARLY", 100_002), Said::Queued(0)),
            (Line::Run(1, "COVER_EARLY", 100_002), Said::Held(1)),
            (Line::Poll(0, 100_004), Said::Runs(1)),
            (Line::Run(1, "COVER_EARLY", 100_002), Said::Held(1)),
            (Line::Finish(0, 100_006), Said::Item(1, 200)),
            (Line::Take, Said::Batch(&[(1, 200)])),
            (Line::Ack, Said::Done),
        ],
    )?;
    assert_eq!(rt; executor.held(), 0);
    go_on(
        &rt,
        alloc,
        &mut executor,
        &[
            (Line::Run(1, "COVER_EARLY", 100_002), Said::Queued(0)),
            (Line::Poll(0, 100_009), Said::Runs(1)),
            (Line::Finish(0, 100_010), Said::Item(1, 200)),
            (Line::Take, Said::Batch(&[(1, 200)])),
            (Line::Take, Said::BatchOut),
        ],
    )?;
    assert_eq!(rt; executor.held(), 1);
    Ok(())
}

/// A run that lasts too long is given its result and leaves its job free.
#[test]
fn discard_with_a_timeout(rt: HostRuntime) -> Result<(), Fail> {
    let _executor = played(
        &rt,
        rt.alloc(),
        &[
            (Line::Limited(1, "DISCARD_LATER", 100_000), Said::Queued(0)),
            (Line::Poll(3, 100_000), Said::Runs(1)),
            (Line::Limited(2, "DISCARD_LATER", 100_100), Said::Discarded),
            (Line::Idle, Said::Running),
            (Line::Expire(104_999), Said::Expired(0)),
            (Line::Expire(105_000), Said::Expired(1)),
            (Line::Limited(2, "DISCARD_LATER", 100_100), Said::Queued(0)),
            (Line::Poll(3, 105_002), Said::RunnerBusy(1)),
            (Line::Poll(4, 105_002), Said::Runs(2)),
            (Line::Finish(3, 106_000), Said::NoItem(1)),
            (Line::Take, Said::Batch(&[(1, 502)])),
            (Line::Take, Said::BatchOut),
            (Line::Kill, Said::Killed(0)),
            (Line::Finish(4, 107_000), Said::Item(2, 500)),
            (Line::Read(9, 1), Said::NoLines),
        ],
    )?;
    Ok(())
}

/// A failed batch goes before the items that wait, or, saved, behind the spooled ones.
#[test]
fn failed_batches_keep_their_order(rt: HostRuntime) -> Result<(), Fail> {
    let _executor = played(
        &rt,
        rt.alloc(),
        &[
            (Line::Fail(false), Said::NoBatch),
            (Line::Run(1, "SERIAL_EXECUTION", 100_000), Said::Queued(0)),
            (Line::Run(2, "SERIAL_EXECUTION", 100_000), Said::Queued(0)),
            (Line::Kill, Said::Killed(2)),
            (Line::Take, Said::Batch(&[(1, 500), (2, 500)])),
            (Line::Run(3, "SERIAL_EXECUTION", 100_000), Said::Queued(0)),
            (Line::Kill, Said::Killed(1)),
            (Line::Fail(false), Said::Done),
            (Line::Take, Said::Batch(&[(1, 500), (2, 500), (3, 500)])),
            (Line::Fail(true), Said::Done),
            (Line::Take, Said::Nothing),
            (Line::Run(4, "SERIAL_EXECUTION", 100_000), Said::Queued(0)),
            (Line::Kill, Said::Killed(1)),
            (Line::Take, Said::Batch(&[(4, 500)])),
            (Line::Fail(true), Said::Done),
            (
                Line::Kept,
                Said::Kept(&[(1, 500), (2, 500), (3, 500), (4, 500)]),
            ),
            (Line::Reload, Said::Reloaded(4)),
            (
                Line::Take,
                Said::Batch(&[(1, 500), (2, 500), (3, 500), (4, 500)]),
            ),
        ],
    )?;
    Ok(())
}
