//! The calls of the results, with their answers.

use super::{CallbackRefusal, Callbacks};
use job_values::{CallbackItem, LogId, LogMoment, ResultText, Text};
use std::alloc::Global;
use std::test::Fail;

fn item(alloc: Global, log: u64) -> Result<CallbackItem, Fail> {
    Ok(CallbackItem {
        log: LogId::new(log).ok_or("a log id")?,
        log_moment: LogMoment::new(100_000).ok_or("a log moment")?,
        code: 200,
        msg: ResultText::new(Text::copied(alloc, "")?).ok_or("a text")?,
    })
}

/// The results with the items of logs 1 and 2 waiting.
fn two_items(alloc: Global) -> Result<Callbacks, Fail> {
    let mut callbacks = Callbacks::new(alloc);
    callbacks.reserve(1)?;
    callbacks.add(item(alloc, 1)?);
    callbacks.reserve(1)?;
    callbacks.add(item(alloc, 2)?);
    Ok(callbacks)
}

fn sizes(callbacks: &Callbacks) -> (usize, usize, usize) {
    (
        callbacks.waiting().len(),
        callbacks.batch().len(),
        callbacks.spooled().len(),
    )
}

#[test]
fn goes_out_and_comes_back(rt: HostRuntime) -> Result<(), Fail> {
    let mut callbacks = two_items(rt.alloc())?;
    assert_eq!(rt; callbacks.ack(), Err(CallbackRefusal::NoBatch));
    assert_eq!(rt; callbacks.take_batch(), Ok(()));
    assert_eq!(rt; callbacks.take_batch(), Err(CallbackRefusal::BatchOut));
    assert_eq!(rt; callbacks.fail_to(true), Ok(()));
    assert_eq!(rt; sizes(&callbacks), (0, 0, 2));
    assert_eq!(rt; callbacks.reload(), 2);
    assert_eq!(rt; callbacks.take_batch(), Ok(()));
    assert_eq!(rt; callbacks.ack(), Ok(()));
    assert_eq!(rt; callbacks.take_batch(), Err(CallbackRefusal::Nothing));
    Ok(())
}
