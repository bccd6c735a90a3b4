//! The event of a call, by its message.
ghost use Rattle.std.specs.Prelude.{◌≡◌, ◌≤◌, ◌≤ℤ◌, pos, IfOk, IfErr};
ghost use Rattle.api_messages.specs.Tables.{run_rows, log_rows};
ghost use Rattle.api_messages.specs.Seen.{run_cells, log_cells};
ghost use Rattle.api_messages.specs.Writing.{Fit};
ghost use Rattle.executor_node.specs.Calls.{EventAt, FaultAt, RunOf, LineOf};

use crate::call::Call;
use api_messages::{
    LogMessage, MessageFault, RunMessage, read_idle_beat, read_kill, read_log, read_run,
};
use job_events::ExecutorEvent;
use job_values::{BoundedText, LineNo, LogMoment, Moment, Run, ShardNo, Timeout};
use std::alloc::Global;

/// The shard number of a member.
fn shard_of(number: u32) -> ShardNo
    requires { number ≤ 2147483647 }
    ensures { result ≡ number }
{
    match ShardNo::new(number) {
        Some(shard) => shard,
        None => unreachable!(),
    }
}

/// The timeout of a member.
fn timeout_of(seconds: i32) -> Timeout
    requires { pos 0 ≤ℤ seconds }
    ensures { seconds ≡ pos result }
{
    match Timeout::new(seconds as u32) {
        Some(timeout) => timeout,
        None => unreachable!(),
    }
}

/// The moment of a log in a member.
fn log_moment_of(ms: i64) -> LogMoment
    requires { pos 0 ≤ℤ ms }
    ensures { ms ≡ pos result }
{
    match LogMoment::new(ms as u64) {
        Some(moment) => moment,
        None => unreachable!(),
    }
}

/// The run that a message asks for.
fn run_of(message: RunMessage) -> Run
    requires { Fit run_rows (run_cells message) }
    ensures { RunOf message result }
{
    Run {
        job: message.job_id,
        log: message.log_id,
        handler: BoundedText::of(message.executor_handler),
        param: BoundedText::of(message.executor_params),
        block: BoundedText::of(message.executor_block_strategy),
        glue: BoundedText::of(message.glue_type),
        timeout: timeout_of(message.executor_timeout),
        log_moment: log_moment_of(message.log_date_time),
        index: shard_of(message.broadcast_index),
        total: shard_of(message.broadcast_total),
    }
}

/// The number of the first line that a message asks for.
fn line_of(message: &LogMessage) -> LineNo
    requires { Fit log_rows (log_cells message.now) }
    ensures { LineOf message.now result }
{
    match LineNo::new(message.from_line_num as u32) {
        Some(line) => line,
        None => unreachable!(),
    }
}

/// The event of a call with this body, or the fault of its message.
pub fn event_of(
    alloc: Global,
    call: Call,
    body: &[u8],
    at: Moment,
) -> Result<ExecutorEvent, MessageFault>
    ensures event { IfOk result (EventAt call body.now at) }
    ensures fault { IfErr result (FaultAt call body.now) }
{
    match call {
        Call::Beat => Ok(ExecutorEvent::Beat),
        Call::IdleBeat => match read_idle_beat(alloc, body) {
            Ok(message) => Ok(ExecutorEvent::IdleBeat(message.job_id)),
            Err(fault) => Err(fault),
        },
        Call::Run => match read_run(alloc, body) {
            Ok(message) => Ok(ExecutorEvent::Run(run_of(message), at)),
            Err(fault) => Err(fault),
        },
        Call::Kill => match read_kill(alloc, body) {
            Ok(message) => Ok(ExecutorEvent::Kill(message.job_id)),
            Err(fault) => Err(fault),
        },
        Call::Log => match read_log(alloc, body) {
            Ok(message) => Ok(ExecutorEvent::ReadLines(message.log_id, line_of(&message))),
            Err(fault) => Err(fault),
        },
    }
}
