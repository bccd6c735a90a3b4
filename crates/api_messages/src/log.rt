//! The messages of `log`.
ghost use Rattle.std.specs.Prelude.{◌≡◌, ◌≤◌, length, Ok, IfOk};
ghost use Rattle.serde_json.specs.View.{view};
ghost use Rattle.serde_json.specs.Written.{compact_text};
ghost use Rattle.job_values.specs.declared.limits.TheConstants.{LONGEST_BODY};
ghost use Rattle.api_messages.specs.Tables.{log_rows};
ghost use Rattle.api_messages.specs.Reading.{Gives, cells_at, message_at};
ghost use Rattle.api_messages.specs.Seen.{log_cells};
ghost use Rattle.api_messages.specs.Writing.{Fit, object_of};

use crate::body::object_of;
use crate::fault::MessageFault;
use crate::member::{line_number, log_id, log_milliseconds};
use crate::written::text_of;
use job_values::{LogId, NoMemory, Seq};
use serde_json::{Value, json};
use std::alloc::{AllocError, Global};

/// Asks an executor for the lines of a log.
#[derive(Clone, Copy)]
pub struct LogMessage {
    /// The first line, counted from 1.
    pub from_line_num: i32,
    /// The moment of the log, in milliseconds.
    pub log_date_tim: i64,
    pub log_id: LogId,
}

fn log_of(alloc: Global, object: &Value) -> Result<LogMessage, MessageFault>
    ensures { Gives log_cells result (cells_at log_rows (view object.now)) }
{
    let from_line_num = line_number(alloc, object, "fromLineNum")?;
    let log_date_tim = log_milliseconds(alloc, object, "logDateTim")?;
    let log_id = log_id(alloc, object)?;
    Ok(LogMessage {
        from_line_num,
        log_date_tim,
        log_id,
    })
}

/// The message of a body, or its first fault.
#[tactic(auto, unfolding(crate::specs::Reading::message_at))]
pub fn read_log(alloc: Global, bytes: &[u8]) -> Result<LogMessage, MessageFault>
    ensures gives { Gives log_cells result (message_at log_rows bytes.now) }
    ensures fits { IfOk result (λ m. Fit log_rows (log_cells m)) }
{
    let object = object_of(alloc, bytes)?;
    log_of(alloc, &object)
}

fn log_value(alloc: Global, message: &LogMessage) -> Result<Value, AllocError>
    ensures value { IfOk result (λ v. view v ≡ object_of log_rows (log_cells message.now)) }
{
    json!(in alloc; {
        "fromLineNum": message.from_line_num,
        "logDateTim": message.log_date_tim,
        "logId": message.log_id.get(),
    })
}

/// The text of a message; one whose values are within their limits is read back.
pub fn write_log(alloc: Global, message: &LogMessage) -> Result<Seq<u8>, NoMemory>
    ensures text { IfOk result
        (λ b. b ≡ compact_text (object_of log_rows (log_cells message.now))) }
    ensures reads { IfOk result (λ b. length b ≤ LONGEST_BODY → Fit log_rows (log_cells message.now)
        → message_at log_rows b ≡ Ok (log_cells message.now)) }
{
    let Ok(value) = log_value(alloc, message) else {
        return Err(NoMemory);
    };
    text_of(alloc, &value)
}
