//! The answers to `log`.
ghost use Rattle.std.specs.Prelude.{◌≡◌, ◌≤◌, length, Ok, IfOk};
ghost use Rattle.serde_json.specs.View.{view};
ghost use Rattle.serde_json.specs.Written.{compact_text};
ghost use Rattle.job_values.specs.declared.limits.TheConstants.{LONGEST_BODY};
ghost use Rattle.api_messages.specs.Tables.{log_answer_rows};
ghost use Rattle.api_messages.specs.Reading.{Gives, cells_at, message_at};
ghost use Rattle.api_messages.specs.Seen.{log_answer_cells};
ghost use Rattle.api_messages.specs.Writing.{Fit, object_of};

use crate::body::object_of;
use crate::fault::MessageFault;
use crate::member::signed;
use crate::text_member::{long_text, truth};
use crate::written::text_of;
use job_values::{NoMemory, Seq, Text};
use serde_json::{Value, json};
use std::alloc::{AllocError, Global};

/// Lines of a log.
#[derive(Drop)]
pub struct LogAnswer {
    /// The first line, counted from 1.
    pub from_line_num: i32,
    /// Whether no more lines come.
    pub is_end: bool,
    /// Each line followed by LF.
    pub log_content: Text,
    /// The last line.
    pub to_line_num: i32,
}

fn log_answer_of(alloc: Global, object: &Value) -> Result<LogAnswer, MessageFault>
    ensures { Gives log_answer_cells result (cells_at log_answer_rows (view object.now)) }
{
    let from_line_num = signed(alloc, object, "fromLineNum")?;
    let is_end = truth(alloc, object, "isEnd")?;
    let log_content = long_text(alloc, object, "logContent")?;
    let to_line_num = signed(alloc, object, "toLineNum")?;
    Ok(LogAnswer {
        from_line_num,
        is_end,
        log_content,
        to_line_num,
    })
}

/// The message of a body, or its first fault.
#[tactic(auto, unfolding(crate::specs::Reading::message_at))]
pub fn read_log_answer(alloc: Global, bytes: &[u8]) -> Result<LogAnswer, MessageFault>
    ensures gives { Gives log_answer_cells result (message_at log_answer_rows bytes.now) }
{
    let object = object_of(alloc, bytes)?;
    log_answer_of(alloc, &object)
}

fn log_answer_value(alloc: Global, message: &LogAnswer) -> Result<Value, AllocError>
    ensures value { IfOk result
        (λ v. view v ≡ object_of log_answer_rows (log_answer_cells message.now)) }
    ensures fits { IfOk result (λ _. Fit log_answer_rows (log_answer_cells message.now)) }
{
    json!(in alloc; {
        "fromLineNum": message.from_line_num,
        "isEnd": message.is_end,
        "logContent": message.log_content.as_str(),
        "toLineNum": message.to_line_num,
    })
}

/// The text of a message.
pub fn write_log_answer(alloc: Global, message: &LogAnswer) -> Result<Seq<u8>, NoMemory>
    ensures text { IfOk result
        (λ b. b ≡ compact_text (object_of log_answer_rows (log_answer_cells message.now))) }
    ensures reads { IfOk result (λ b. length b ≤ LONGEST_BODY
        → message_at log_answer_rows b ≡ Ok (log_answer_cells message.now)) }
{
    let Ok(value) = log_answer_value(alloc, message) else {
        return Err(NoMemory);
    };
    text_of(alloc, &value)
}
