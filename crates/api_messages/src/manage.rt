//! The messages of `manage`.
ghost use Rattle.std.specs.Prelude.{◌≡◌, ◌≤◌, length, Ok, IfOk};
ghost use Rattle.serde_json.specs.View.{view};
ghost use Rattle.serde_json.specs.Written.{compact_text};
ghost use Rattle.job_values.specs.declared.limits.TheConstants.{LONGEST_BODY};
ghost use Rattle.api_messages.specs.Tables.{manage_rows};
ghost use Rattle.api_messages.specs.Reading.{Gives, cells_at, message_at};
ghost use Rattle.api_messages.specs.Seen.{manage_cells};
ghost use Rattle.api_messages.specs.Writing.{Fit, object_of};

use crate::body::object_of;
use crate::fault::MessageFault;
use crate::text_member::required_text;
use crate::written::text_of;
use job_values::{NoMemory, Seq, Text};
use serde_json::{Value, json};
use std::alloc::{AllocError, Global};

/// Carries one management line to an admin.
#[derive(Drop)]
pub struct ManageMessage {
    /// The line without its LF.
    pub line: Text,
}

fn manage_of(alloc: Global, object: &Value) -> Result<ManageMessage, MessageFault>
    ensures { Gives manage_cells result (cells_at manage_rows (view object.now)) }
{
    let line = required_text(alloc, object, "line")?;
    Ok(ManageMessage { line })
}

/// The message of a body, or its first fault.
#[tactic(auto, unfolding(crate::specs::Reading::message_at))]
pub fn read_manage_body(alloc: Global, bytes: &[u8]) -> Result<ManageMessage, MessageFault>
    ensures gives { Gives manage_cells result (message_at manage_rows bytes.now) }
{
    let object = object_of(alloc, bytes)?;
    manage_of(alloc, &object)
}

fn manage_value(alloc: Global, message: &ManageMessage) -> Result<Value, AllocError>
    ensures value { IfOk result (λ v. view v ≡ object_of manage_rows (manage_cells message.now)) }
    ensures fits { IfOk result (λ _. Fit manage_rows (manage_cells message.now)) }
{
    json!(in alloc; {
        "line": message.line.as_str(),
    })
}

/// The text of a message.
pub fn write_manage_body(alloc: Global, message: &ManageMessage) -> Result<Seq<u8>, NoMemory>
    ensures text { IfOk result
        (λ b. b ≡ compact_text (object_of manage_rows (manage_cells message.now))) }
    ensures reads { IfOk result (λ b. length b ≤ LONGEST_BODY
        → message_at manage_rows b ≡ Ok (manage_cells message.now)) }
{
    let Ok(value) = manage_value(alloc, message) else {
        return Err(NoMemory);
    };
    text_of(alloc, &value)
}
