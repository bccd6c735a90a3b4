//! The messages of `kill`.
ghost use Rattle.std.specs.Prelude.{◌≡◌, ◌≤◌, length, Ok, IfOk};
ghost use Rattle.serde_json.specs.View.{view};
ghost use Rattle.serde_json.specs.Written.{compact_text};
ghost use Rattle.job_values.specs.declared.limits.TheConstants.{LONGEST_BODY};
ghost use Rattle.api_messages.specs.Tables.{job_rows};
ghost use Rattle.api_messages.specs.Reading.{Gives, cells_at, message_at};
ghost use Rattle.api_messages.specs.Seen.{kill_cells};
ghost use Rattle.api_messages.specs.Writing.{Fit, object_of};

use crate::body::object_of;
use crate::fault::MessageFault;
use crate::member::job_id;
use crate::written::text_of;
use job_values::{JobId, NoMemory, Seq};
use serde_json::{Value, json};
use std::alloc::{AllocError, Global};

/// Ends the runs of a job at an executor.
#[derive(Clone, Copy)]
pub struct KillMessage {
    pub job_id: JobId,
}

fn kill_of(alloc: Global, object: &Value) -> Result<KillMessage, MessageFault>
    ensures { Gives kill_cells result (cells_at job_rows (view object.now)) }
{
    let job_id = job_id(alloc, object)?;
    Ok(KillMessage { job_id })
}

/// The message of a body, or its first fault.
#[tactic(auto, unfolding(crate::specs::Reading::message_at))]
pub fn read_kill(alloc: Global, bytes: &[u8]) -> Result<KillMessage, MessageFault>
    ensures gives { Gives kill_cells result (message_at job_rows bytes.now) }
{
    let object = object_of(alloc, bytes)?;
    kill_of(alloc, &object)
}

fn kill_value(alloc: Global, message: &KillMessage) -> Result<Value, AllocError>
    ensures value { IfOk result (λ v. view v ≡ object_of job_rows (kill_cells message.now)) }
    ensures fits { IfOk result (λ _. Fit job_rows (kill_cells message.now)) }
{
    json!(in alloc; {
        "jobId": message.job_id.get(),
    })
}

/// The text of a message.
pub fn write_kill(alloc: Global, message: &KillMessage) -> Result<Seq<u8>, NoMemory>
    ensures text { IfOk result
        (λ b. b ≡ compact_text (object_of job_rows (kill_cells message.now))) }
    ensures reads { IfOk result (λ b. length b ≤ LONGEST_BODY
        → message_at job_rows b ≡ Ok (kill_cells message.now)) }
{
    let Ok(value) = kill_value(alloc, message) else {
        return Err(NoMemory);
    };
    text_of(alloc, &value)
}
