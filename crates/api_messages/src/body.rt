//! A body as JSON, within its length.
ghost use Rattle.serde_json.specs.View.{view};
ghost use Rattle.api_messages.specs.Reading.{Gives, value_at, object_at};

use crate::fault::MessageFault;
use job_values::limits::LONGEST_BODY;
use serde_json::Value;
use std::alloc::Global;

#[tactic(auto, unfolding(crate::specs::Reading::value_at))]
pub(crate) fn value_of(alloc: Global, bytes: &[u8]) -> Result<Value, MessageFault>
    ensures { Gives view result (value_at bytes.now) }
{
    if bytes.len() > LONGEST_BODY {
        return Err(MessageFault::TooLong);
    }
    match Value::from_slice(alloc, bytes) {
        Ok(value) => Ok(value),
        Err(error) => {
            if error.is_memory() {
                Err(MessageFault::NoMemory)
            } else {
                Err(MessageFault::NotJson)
            }
        }
    }
}

#[tactic(auto, unfolding(crate::specs::Reading::object_at))]
pub(crate) fn object_of(alloc: Global, bytes: &[u8]) -> Result<Value, MessageFault>
    ensures { Gives view result (object_at bytes.now) }
{
    let value = value_of(alloc, bytes)?;
    if !value.is_object() {
        return Err(MessageFault::WrongShape);
    }
    Ok(value)
}
