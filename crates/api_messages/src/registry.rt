//! The messages of `registry` and `registryRemove`.
ghost use Rattle.std.specs.Prelude.{◌≡◌, ◌≤◌, length, Ok, IfOk};
ghost use Rattle.serde_json.specs.View.{view};
ghost use Rattle.serde_json.specs.Written.{compact_text};
ghost use Rattle.job_values.specs.declared.limits.TheConstants.{LONGEST_BODY};
ghost use Rattle.api_messages.specs.Tables.{registry_rows};
ghost use Rattle.api_messages.specs.Reading.{Gives, cells_at, message_at};
ghost use Rattle.api_messages.specs.Seen.{registry_cells};
ghost use Rattle.api_messages.specs.Writing.{Fit, object_of};

use crate::body::object_of;
use crate::fault::MessageFault;
use crate::text_member::short_text;
use crate::written::text_of;
use job_values::limits::LONGEST_NAME;
use job_values::{NoMemory, Seq, Text};
use serde_json::{Value, json};
use std::alloc::{AllocError, Global};

/// Tells an admin that an executor is there, or no longer. Each text has at most
/// `LONGEST_NAME` bytes.
#[derive(Drop)]
pub struct RegistryMessage {
    pub registry_group: Text,
    /// The application of the executor.
    pub registry_key: Text,
    /// The address of the executor.
    pub registry_value: Text,
}

fn registry_of(alloc: Global, object: &Value) -> Result<RegistryMessage, MessageFault>
    ensures { Gives registry_cells result (cells_at registry_rows (view object.now)) }
{
    let registry_group = short_text(alloc, object, "registryGroup", LONGEST_NAME, "")?;
    let registry_key = short_text(alloc, object, "registryKey", LONGEST_NAME, "")?;
    let registry_value = short_text(alloc, object, "registryValue", LONGEST_NAME, "")?;
    Ok(RegistryMessage {
        registry_group,
        registry_key,
        registry_value,
    })
}

/// The message of a body, or its first fault.
#[tactic(auto, unfolding(crate::specs::Reading::message_at))]
pub fn read_registry(alloc: Global, bytes: &[u8]) -> Result<RegistryMessage, MessageFault>
    ensures gives { Gives registry_cells result (message_at registry_rows bytes.now) }
    ensures fits { IfOk result (λ m. Fit registry_rows (registry_cells m)) }
{
    let object = object_of(alloc, bytes)?;
    registry_of(alloc, &object)
}

fn registry_value(alloc: Global, message: &RegistryMessage) -> Result<Value, AllocError>
    ensures value { IfOk result
        (λ v. view v ≡ object_of registry_rows (registry_cells message.now)) }
{
    json!(in alloc; {
        "registryGroup": message.registry_group.as_str(),
        "registryKey": message.registry_key.as_str(),
        "registryValue": message.registry_value.as_str(),
    })
}

/// The text of a message; one whose values are within their limits is read back.
pub fn write_registry(alloc: Global, message: &RegistryMessage) -> Result<Seq<u8>, NoMemory>
    ensures text { IfOk result
        (λ b. b ≡ compact_text (object_of registry_rows (registry_cells message.now))) }
    ensures reads { IfOk result (λ b. length b ≤ LONGEST_BODY
        → Fit registry_rows (registry_cells message.now)
        → message_at registry_rows b ≡ Ok (registry_cells message.now)) }
{
    let Ok(value) = registry_value(alloc, message) else {
        return Err(NoMemory);
    };
    text_of(alloc, &value)
}
