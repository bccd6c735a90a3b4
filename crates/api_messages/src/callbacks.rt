//! The messages of `callback`: an array of results.
ghost use Rattle.std.specs.Prelude.{◌≡◌, ◌≤◌, length, map, Ok, IfOk};
ghost use Rattle.std.specs.List.{list_all};
ghost use Rattle.serde_json.specs.View.{view};
ghost use Rattle.serde_json.specs.Written.{compact_text};
ghost use Rattle.job_values.specs.declared.limits.TheConstants.{LONGEST_BODY, BATCH_ITEMS};
ghost use Rattle.api_messages.specs.Reading.{Gives, is_object, items_at, results_in, callbacks_at};
ghost use Rattle.api_messages.specs.Seen.{item_cells};
ghost use Rattle.api_messages.specs.Writing.{FitAll, array_of};

use crate::body::value_of;
use crate::fault::MessageFault;
use crate::item::{item_of, item_value};
use crate::written::text_of;
use job_values::limits::BATCH_ITEMS;
use job_values::{CallbackItem, NoMemory, Seq};
use serde_json::Value;
use std::alloc::{AllocError, Global};

fn all_objects(values: &[Value]) -> bool
    ensures { result ≡ list_all (λ value. is_object (view value)) values.now }
{
    values.iter().all(|value| value.is_object())
}

fn items_of(alloc: Global, values: &[Value]) -> Result<Vec<CallbackItem>, MessageFault>
    ensures { Gives (λ v. map item_cells v.items) result (items_at (map view values.now)) }
{
    let mut items = Vec::with_capacity(alloc, values.len())?;
    for value in values {
        let item = item_of(alloc, value)?;
        items.push(item)?;
    }
    Ok(items)
}

fn results_of(alloc: Global, values: &[Value]) -> Result<Seq<CallbackItem>, MessageFault>
    ensures { Gives (map item_cells) result (results_in (map view values.now)) }
{
    if !all_objects(values) {
        return Err(MessageFault::WrongShape);
    }
    if values.len() > BATCH_ITEMS {
        return Err(MessageFault::TooLong);
    }
    let items = items_of(alloc, values)?;
    Ok(Seq::of(items))
}

/// The results of a body, or its first fault.
#[tactic(auto, unfolding(crate::specs::Reading::callbacks_at))]
pub fn read_callbacks(alloc: Global, bytes: &[u8]) -> Result<Seq<CallbackItem>, MessageFault>
    ensures gives { Gives (map item_cells) result (callbacks_at bytes.now) }
{
    let value = value_of(alloc, bytes)?;
    match value.as_array() {
        Some(values) => results_of(alloc, values),
        None => Err(MessageFault::WrongShape),
    }
}

fn array_value(alloc: Global, items: &[CallbackItem]) -> Result<Value, AllocError>
    ensures value { IfOk result (λ v. view v ≡ array_of (map item_cells items.now)) }
    ensures fits { IfOk result (λ _. FitAll (map item_cells items.now)) }
{
    let mut values = Vec::with_capacity(alloc, items.len())?;
    for item in items {
        values.push(item_value(alloc, item)?)?;
    }
    Ok(Value::Array(values))
}

/// The text of a callback; one of at most `BATCH_ITEMS` results is read back.
pub fn write_callbacks(alloc: Global, items: &Seq<CallbackItem>) -> Result<Seq<u8>, NoMemory>
    ensures text { IfOk result (λ b. b ≡ compact_text (array_of (map item_cells items.now))) }
    ensures reads { IfOk result (λ b. length b ≤ LONGEST_BODY → length items.now ≤ BATCH_ITEMS
        → callbacks_at b ≡ Ok (map item_cells items.now)) }
{
    let Ok(value) = array_value(alloc, items.as_slice()) else {
        return Err(NoMemory);
    };
    text_of(alloc, &value)
}
