//! The messages of `run`.
ghost use Rattle.std.specs.Prelude.{◌≡◌, ◌≤◌, length, Ok, IfOk};
ghost use Rattle.serde_json.specs.View.{view};
ghost use Rattle.serde_json.specs.Written.{compact_text};
ghost use Rattle.job_values.specs.declared.limits.TheConstants.{LONGEST_BODY};
ghost use Rattle.api_messages.specs.Tables.{run_rows};
ghost use Rattle.api_messages.specs.Reading.{Gives, cells_at, message_at};
ghost use Rattle.api_messages.specs.Seen.{run_cells};
ghost use Rattle.api_messages.specs.Writing.{Fit, object_of};

use crate::body::object_of;
use crate::fault::MessageFault;
use crate::member::{count, job_id, log_id, log_milliseconds, milliseconds, seconds};
use crate::text_member::{long_text, short_text};
use crate::written::text_of;
use job_values::limits::{LONGEST_NAME, LONGEST_RUN_PARAM, LONGEST_RUN_WORD};
use job_values::{JobId, LogId, NoMemory, Seq, Text};
use serde_json::{Value, json};
use std::alloc::{AllocError, Global};

/// Asks an executor to run a job.
#[derive(Drop)]
pub struct RunMessage {
    /// The index among the addresses, from 0 to `LAST_SHARD`.
    pub broadcast_index: u32,
    /// How many addresses, from 0 to `LAST_SHARD`.
    pub broadcast_total: u32,
    /// At most `LONGEST_RUN_WORD` bytes; a text that is no known strategy is kept, and runs serially.
    pub executor_block_strategy: Text,
    /// At most `LONGEST_NAME` bytes.
    pub executor_handler: Text,
    /// At most `LONGEST_RUN_PARAM` bytes.
    pub executor_params: Text,
    /// In seconds; 0 is no limit.
    pub executor_timeout: i32,
    pub glue_source: Text,
    /// At most `LONGEST_RUN_WORD` bytes.
    pub glue_type: Text,
    /// In milliseconds.
    pub glue_updatetime: i64,
    pub job_id: JobId,
    /// The moment of the log, in milliseconds.
    pub log_date_time: i64,
    pub log_id: LogId,
}

fn run_of(alloc: Global, object: &Value) -> Result<RunMessage, MessageFault>
    ensures { Gives run_cells result (cells_at run_rows (view object.now)) }
{
    let broadcast_index = count(alloc, object, "broadcastIndex", 0)?;
    let broadcast_total = count(alloc, object, "broadcastTotal", 1)?;
    let executor_block_strategy = short_text(
        alloc,
        object,
        "executorBlockStrategy",
        LONGEST_RUN_WORD,
        "SERIAL_EXECUTION",
    )?;
    let executor_handler = short_text(alloc, object, "executorHandler", LONGEST_NAME, "")?;
    let executor_params = short_text(alloc, object, "executorParams", LONGEST_RUN_PARAM, "")?;
    let executor_timeout = seconds(alloc, object, "executorTimeout")?;
    let glue_source = long_text(alloc, object, "glueSource")?;
    let glue_type = short_text(alloc, object, "glueType", LONGEST_RUN_WORD, "BEAN")?;
    let glue_updatetime = milliseconds(alloc, object, "glueUpdatetime")?;
    let job_id = job_id(alloc, object)?;
    let log_date_time = log_milliseconds(alloc, object, "logDateTime")?;
    let log_id = log_id(alloc, object)?;
    Ok(RunMessage {
        broadcast_index,
        broadcast_total,
        executor_block_strategy,
        executor_handler,
        executor_params,
        executor_timeout,
        glue_source,
        glue_type,
        glue_updatetime,
        job_id,
        log_date_time,
        log_id,
    })
}

/// The message of a body, or its first fault.
#[tactic(auto, unfolding(crate::specs::Reading::message_at))]
pub fn read_run(alloc: Global, bytes: &[u8]) -> Result<RunMessage, MessageFault>
    ensures gives { Gives run_cells result (message_at run_rows bytes.now) }
    ensures fits { IfOk result (λ m. Fit run_rows (run_cells m)) }
{
    let object = object_of(alloc, bytes)?;
    run_of(alloc, &object)
}

fn run_value(alloc: Global, message: &RunMessage) -> Result<Value, AllocError>
    ensures value { IfOk result (λ v. view v ≡ object_of run_rows (run_cells message.now)) }
{
    json!(in alloc; {
        "broadcastIndex": message.broadcast_index,
        "broadcastTotal": message.broadcast_total,
        "executorBlockStrategy": message.executor_block_strategy.as_str(),
        "executorHandler": message.executor_handler.as_str(),
        "executorParams": message.executor_params.as_str(),
        "executorTimeout": message.executor_timeout,
        "glueSource": message.glue_source.as_str(),
        "glueType": message.glue_type.as_str(),
        "glueUpdatetime": message.glue_updatetime,
        "jobId": message.job_id.get(),
        "logDateTime": message.log_date_time,
        "logId": message.log_id.get(),
    })
}

/// The text of a message; one whose values are within their limits is read back.
pub fn write_run(alloc: Global, message: &RunMessage) -> Result<Seq<u8>, NoMemory>
    ensures text { IfOk result
        (λ b. b ≡ compact_text (object_of run_rows (run_cells message.now))) }
    ensures reads { IfOk result (λ b. length b ≤ LONGEST_BODY → Fit run_rows (run_cells message.now)
        → message_at run_rows b ≡ Ok (run_cells message.now)) }
{
    let Ok(value) = run_value(alloc, message) else {
        return Err(NoMemory);
    };
    text_of(alloc, &value)
}
