//! The answers to every call.
ghost use Rattle.std.specs.Prelude.{◌≡◌, ◌≤◌, length, false, Ok, IfOk, OnOk, codes, option_map};
ghost use Rattle.serde_json.specs.View.{view, members_view};
ghost use Rattle.serde_json.specs.Written.{compact_text, has_float};
ghost use Rattle.job_values.specs.declared.limits.TheConstants.{LONGEST_BODY};
ghost use Rattle.api_messages.specs.Tables.{return_rows};
ghost use Rattle.api_messages.specs.Reading.{Gives, cells_at, message_at};
ghost use Rattle.api_messages.specs.Seen.{return_cells};
ghost use Rattle.api_messages.specs.Members.{text_or_none, value_or_none};
ghost use Rattle.api_messages.specs.Writing.{Fit, data_of, object_of, put_unless_null};

use crate::body::object_of;
use crate::fault::MessageFault;
use crate::member::signed;
use crate::text_member::{text_if, value_if};
use crate::written::text_of;
use job_values::{NoMemory, Seq, Text};
use serde_json::{Map, Value, put};
use std::alloc::{AllocError, Global};

/// The answer to a call.
#[derive(Drop)]
pub struct ReturnMessage {
    /// `SUCCESS` where the call was taken.
    pub code: i32,
    /// What the call gives.
    pub content: Option<Value>,
    /// Why the call was refused.
    pub msg: Option<Text>,
}

fn return_of(alloc: Global, object: &Value) -> Result<ReturnMessage, MessageFault>
    ensures { Gives return_cells result (cells_at return_rows (view object.now)) }
{
    let code = signed(alloc, object, "code")?;
    let content = value_if(alloc, object, "content")?;
    let msg = text_if(alloc, object, "msg")?;
    Ok(ReturnMessage { code, content, msg })
}

/// The message of a body, or its first fault.
#[tactic(auto, unfolding(crate::specs::Reading::message_at))]
pub fn read_return(alloc: Global, bytes: &[u8]) -> Result<ReturnMessage, MessageFault>
    ensures gives { Gives return_cells result (message_at return_rows bytes.now) }
{
    let object = object_of(alloc, bytes)?;
    return_of(alloc, &object)
}

fn put_content(
    members: &mut Map<String, Value>,
    alloc: Global,
    content: &Option<Value>,
) -> Result<(), AllocError>
    ensures { OnOk result (members_view members.new.entries
        ≡ put_unless_null (codes "content") (data_of (value_or_none (option_map view content.now)))
        (members_view members.old.entries)) }
{
    match content {
        Some(value) => {
            if value.is_null() {
                Ok(())
            } else {
                put(members, alloc, "content", value.clone()?)
            }
        }
        None => Ok(()),
    }
}

fn put_msg(
    members: &mut Map<String, Value>,
    alloc: Global,
    msg: &Option<Text>,
) -> Result<(), AllocError>
    ensures { OnOk result (members_view members.new.entries
        ≡ put_unless_null (codes "msg") (data_of (text_or_none msg.now))
        (members_view members.old.entries)) }
{
    match msg {
        Some(text) => put(
            members,
            alloc,
            "msg",
            Value::try_from_str(alloc, text.as_str())?,
        ),
        None => Ok(()),
    }
}

fn return_value(alloc: Global, message: &ReturnMessage) -> Result<Value, AllocError>
    ensures value { IfOk result (λ v. view v ≡ object_of return_rows (return_cells message.now)) }
{
    let mut members = Map::new(alloc);
    put(&mut members, alloc, "code", Value::from(message.code))?;
    put_content(&mut members, alloc, &message.content)?;
    put_msg(&mut members, alloc, &message.msg)?;
    Ok(Value::Object(members))
}

/// The text of a message; a `content` that is null is not written.
/// One whose content nests at most 126 deep is read back.
pub fn write_return(alloc: Global, message: &ReturnMessage) -> Result<Seq<u8>, NoMemory>
    ensures text { IfOk result
        (λ b. has_float (object_of return_rows (return_cells message.now)) ≡ false
        → b ≡ compact_text (object_of return_rows (return_cells message.now))) }
    ensures reads { IfOk result (λ b. length b ≤ LONGEST_BODY
        → Fit return_rows (return_cells message.now)
        → message_at return_rows b ≡ Ok (return_cells message.now)) }
{
    let Ok(value) = return_value(alloc, message) else {
        return Err(NoMemory);
    };
    text_of(alloc, &value)
}
