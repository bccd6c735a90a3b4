//! One result as JSON: the form that is written, and the older one, whose code and text are members of
//! `executeResult`.
ghost use Rattle.std.specs.Prelude.{◌≡◌, ◌≤◌, [], ◌∷◌, length, option_map, Ok, IfOk};
ghost use Rattle.serde_json.specs.View.{view};
ghost use Rattle.serde_json.specs.Written.{compact_text};
ghost use Rattle.job_values.specs.declared.limits.TheConstants.{LONGEST_BODY, LONGEST_RESULT};
ghost use Rattle.api_messages.specs.Members.{text, cut_text as cut_kind, required, optional};
ghost use Rattle.api_messages.specs.Tables.{signed as signed_kind, item_rows};
ghost use Rattle.api_messages.specs.Reading.{Gives, cells_at, result_in, older_result, told_in, item_in, one_item_at};
ghost use Rattle.api_messages.specs.Seen.{told_cells, item_cells};
ghost use Rattle.api_messages.specs.Writing.{Fit, object_of};

use crate::body::object_of as object_in;
use crate::fault::MessageFault;
use crate::member::{faulty, log_id, log_moment, present, signed};
use crate::text_member::cut_text;
use crate::written::text_of;
use job_values::limits::LONGEST_RESULT;
use job_values::{CallbackItem, NoMemory, ResultText, Seq};
use serde_json::{Value, json};
use std::alloc::{AllocError, Global};

/// The code and the text of a result.
#[derive(Drop)]
pub(crate) struct Told {
    pub code: i32,
    pub msg: ResultText,
}

/// The code and the text that these two members of an object are.
fn members_of(alloc: Global, object: &Value, code: &str, msg: &str) -> Result<Told, MessageFault>
    ensures { Gives told_cells result (cells_at (required code.now signed_kind
        ∷ optional msg.now (cut_kind LONGEST_RESULT) (text []) ∷ []) (view object.now)) }
{
    let code = signed(alloc, object, code)?;
    let msg = cut_text(alloc, object, msg, LONGEST_RESULT)?;
    Ok(Told {
        code,
        msg: ResultText::of(msg),
    })
}

/// The code and the text of an `executeResult`.
#[tactic(auto, unfolding(crate::specs::Reading::result_in))]
fn result_of(alloc: Global, given: &Value) -> Result<Told, MessageFault>
    ensures { Gives told_cells result (result_in (view given.now)) }
{
    if !given.is_object() {
        return Err(faulty(alloc, "executeResult"));
    }
    match members_of(alloc, given, "code", "msg") {
        Ok(told) => Ok(told),
        Err(MessageFault::NoMemory) => Err(MessageFault::NoMemory),
        Err(_) => Err(faulty(alloc, "executeResult")),
    }
}

/// The `executeResult` of an item that has no `handleCode`.
fn older_result(object: &Value) -> Option<&Value>
    ensures { option_map (λ v. view v.now) result ≡ older_result (view object.now) }
{
    match present(object, "handleCode") {
        Some(_) => None,
        None => present(object, "executeResult"),
    }
}

/// The code and the text of an item of either form.
#[tactic(auto, unfolding(crate::specs::Reading::told_in))]
fn told_of(alloc: Global, object: &Value) -> Result<Told, MessageFault>
    ensures { Gives told_cells result (told_in (view object.now)) }
{
    match older_result(object) {
        Some(given) => result_of(alloc, given),
        None => members_of(alloc, object, "handleCode", "handleMsg"),
    }
}

/// The result that an object is.
#[tactic(auto, unfolding(crate::specs::Reading::item_in))]
pub(crate) fn item_of(alloc: Global, object: &Value) -> Result<CallbackItem, MessageFault>
    ensures { Gives item_cells result (item_in (view object.now)) }
{
    let told = told_of(alloc, object)?;
    let log_moment = log_moment(alloc, object, "logDateTim")?;
    let log = log_id(alloc, object)?;
    Ok(CallbackItem {
        log,
        log_moment,
        code: told.code,
        msg: told.msg,
    })
}

/// The result of a body that is one item, or its first fault.
#[tactic(auto, unfolding(crate::specs::Reading::one_item_at))]
pub fn read_item(alloc: Global, bytes: &[u8]) -> Result<CallbackItem, MessageFault>
    ensures gives { Gives item_cells result (one_item_at bytes.now) }
{
    let object = object_in(alloc, bytes)?;
    item_of(alloc, &object)
}

pub(crate) fn item_value(alloc: Global, item: &CallbackItem) -> Result<Value, AllocError>
    ensures value { IfOk result (λ v. view v ≡ object_of item_rows (item_cells item.now)) }
    ensures fits { IfOk result (λ _. Fit item_rows (item_cells item.now)) }
{
    let msg = item.msg.get();
    json!(in alloc; {
        "handleCode": item.code,
        "handleMsg": msg.as_str(),
        "logDateTim": item.log_moment.get(),
        "logId": item.log.get(),
    })
}

/// The text of one item, in the form with `handleCode`.
pub fn write_item(alloc: Global, item: &CallbackItem) -> Result<Seq<u8>, NoMemory>
    ensures text { IfOk result
        (λ b. b ≡ compact_text (object_of item_rows (item_cells item.now))) }
    ensures fits { IfOk result (λ _. Fit item_rows (item_cells item.now)) }
    ensures reads { IfOk result (λ b. length b ≤ LONGEST_BODY
        → one_item_at b ≡ Ok (item_cells item.now)) }
{
    let Ok(value) = item_value(alloc, item) else {
        return Err(NoMemory);
    };
    text_of(alloc, &value)
}
