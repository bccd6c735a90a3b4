//! The messages of `idleBeat`.
ghost use Rattle.std.specs.Prelude.{◌≡◌, ◌≤◌, length, Ok, IfOk};
ghost use Rattle.serde_json.specs.View.{view};
ghost use Rattle.serde_json.specs.Written.{compact_text};
ghost use Rattle.job_values.specs.declared.limits.TheConstants.{LONGEST_BODY};
ghost use Rattle.api_messages.specs.Tables.{job_rows};
ghost use Rattle.api_messages.specs.Reading.{Gives, cells_at, message_at};
ghost use Rattle.api_messages.specs.Seen.{idle_beat_cells};
ghost use Rattle.api_messages.specs.Writing.{Fit, object_of};

use crate::body::object_of;
use crate::fault::MessageFault;
use crate::member::job_id;
use crate::written::text_of;
use job_values::{JobId, NoMemory, Seq};
use serde_json::{Value, json};
use std::alloc::{AllocError, Global};

/// Asks an executor whether a job is idle there.
#[derive(Clone, Copy)]
pub struct IdleBeatMessage {
    pub job_id: JobId,
}

fn idle_beat_of(alloc: Global, object: &Value) -> Result<IdleBeatMessage, MessageFault>
    ensures { Gives idle_beat_cells result (cells_at job_rows (view object.now)) }
{
    let job_id = job_id(alloc, object)?;
    Ok(IdleBeatMessage { job_id })
}

/// The message of a body, or its first fault.
#[tactic(auto, unfolding(crate::specs::Reading::message_at))]
pub fn read_idle_beat(alloc: Global, bytes: &[u8]) -> Result<IdleBeatMessage, MessageFault>
    ensures gives { Gives idle_beat_cells result (message_at job_rows bytes.now) }
{
    let object = object_of(alloc, bytes)?;
    idle_beat_of(alloc, &object)
}

fn idle_beat_value(alloc: Global, message: &IdleBeatMessage) -> Result<Value, AllocError>
    ensures value { IfOk result (λ v. view v ≡ object_of job_rows (idle_beat_cells message.now)) }
    ensures fits { IfOk result (λ _. Fit job_rows (idle_beat_cells message.now)) }
{
    json!(in alloc; {
        "jobId": message.job_id.get(),
    })
}

/// The text of a message.
pub fn write_idle_beat(alloc: Global, message: &IdleBeatMessage) -> Result<Seq<u8>, NoMemory>
    ensures text { IfOk result
        (λ b. b ≡ compact_text (object_of job_rows (idle_beat_cells message.now))) }
    ensures reads { IfOk result (λ b. length b ≤ LONGEST_BODY
        → message_at job_rows b ≡ Ok (idle_beat_cells message.now)) }
{
    let Ok(value) = idle_beat_value(alloc, message) else {
        return Err(NoMemory);
    };
    text_of(alloc, &value)
}
