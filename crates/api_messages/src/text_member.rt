//! The members of an object that are texts, true or false, or any value.
ghost use Rattle.std.specs.Prelude.{◌≡◌, ◌≤◌, [], length, Some, Ok, IfOk, option_map};
ghost use Rattle.serde_json.specs.View.{view};
ghost use Rattle.api_messages.specs.Members.{Cell, text, none, bool as truth_cell, text_within, any_text, cut_text, truth, any_value, required, optional, text_or_none, value_or_none};
ghost use Rattle.api_messages.specs.Reading.{Gives, found, cut as cut_of, cell_at};

use crate::fault::MessageFault;
use crate::member::{faulty, present};
use job_values::Text;
use serde_json::Value;
use std::alloc::Global;

fn copied(alloc: Global, from: &str) -> Result<Text, MessageFault>
    ensures value { Gives text result (found (Ok (text from.now))) }
    ensures same { IfOk result (λ t. t ≡ from.now) }
{
    match Text::copied(alloc, from) {
        Ok(own) => Ok(own),
        Err(_) => Err(MessageFault::NoMemory),
    }
}

/// The text where it has at most `most` bytes, else its longest front of whole characters that fits.
#[tactic(auto, unfolding(crate::specs::Reading::cut))]
pub fn cut(from: &str, most: usize) -> &str
    ensures value { result.now ≡ cut_of most from.now }
    ensures fits { length result.now ≤ most }
{
    if from.len() <= most {
        return from;
    }
    let end = from.floor_char_boundary(most);
    &from[..end]
}

/// A text of at most `most` bytes, or the default of a missing member.
#[tactic(auto, unfolding(crate::specs::Reading::read_as, crate::specs::Reading::cell_at))]
pub(crate) fn short_text(
    alloc: Global,
    object: &Value,
    name: &str,
    most: usize,
    missing: &str,
) -> Result<Text, MessageFault>
    ensures { Gives text result
        (cell_at (optional name.now (text_within most) (text missing.now)) (view object.now)) }
{
    match present(object, name) {
        Some(value) => match value.as_str() {
            Some(read) => {
                if read.len() <= most {
                    copied(alloc, read)
                } else {
                    Err(faulty(alloc, name))
                }
            }
            None => Err(faulty(alloc, name)),
        },
        None => copied(alloc, missing),
    }
}

/// A text of any length, or an empty one for a missing member.
#[tactic(auto, unfolding(crate::specs::Reading::read_as, crate::specs::Reading::cell_at))]
pub(crate) fn long_text(alloc: Global, object: &Value, name: &str) -> Result<Text, MessageFault>
    ensures { Gives text result (cell_at (optional name.now any_text (text [])) (view object.now)) }
{
    match present(object, name) {
        Some(value) => match value.as_str() {
            Some(read) => copied(alloc, read),
            None => Err(faulty(alloc, name)),
        },
        None => copied(alloc, ""),
    }
}

/// A text cut to `most` bytes, or an empty one for a missing member.
#[tactic(auto, unfolding(crate::specs::Reading::read_as, crate::specs::Reading::cell_at))]
pub(crate) fn cut_text(
    alloc: Global,
    object: &Value,
    name: &str,
    most: usize,
) -> Result<Text, MessageFault>
    ensures value { Gives text result
        (cell_at (optional name.now (cut_text most) (text [])) (view object.now)) }
    ensures fits { IfOk result (λ t. length t ≤ most) }
{
    match present(object, name) {
        Some(value) => match value.as_str() {
            Some(read) => copied(alloc, cut(read, most)),
            None => Err(faulty(alloc, name)),
        },
        None => copied(alloc, ""),
    }
}

/// A text that has to be there.
#[tactic(auto, unfolding(crate::specs::Reading::read_as, crate::specs::Reading::cell_at))]
pub(crate) fn required_text(alloc: Global, object: &Value, name: &str) -> Result<Text, MessageFault>
    ensures { Gives text result (cell_at (required name.now any_text) (view object.now)) }
{
    match present(object, name) {
        Some(value) => match value.as_str() {
            Some(read) => copied(alloc, read),
            None => Err(faulty(alloc, name)),
        },
        None => Err(faulty(alloc, name)),
    }
}

/// A text that may be missing.
#[tactic(auto, unfolding(crate::specs::Reading::read_as, crate::specs::Reading::cell_at))]
pub(crate) fn text_if(
    alloc: Global,
    object: &Value,
    name: &str,
) -> Result<Option<Text>, MessageFault>
    ensures { Gives text_or_none result
        (cell_at (optional name.now any_text none) (view object.now)) }
{
    match present(object, name) {
        Some(value) => match value.as_str() {
            Some(read) => match Text::copied(alloc, read) {
                Ok(own) => Ok(Some(own)),
                Err(_) => Err(MessageFault::NoMemory),
            },
            None => Err(faulty(alloc, name)),
        },
        None => Ok(None),
    }
}

/// A required `true` or `false`.
#[tactic(auto, unfolding(crate::specs::Reading::read_as, crate::specs::Reading::cell_at))]
pub(crate) fn truth(alloc: Global, object: &Value, name: &str) -> Result<bool, MessageFault>
    ensures { Gives truth_cell result (cell_at (required name.now truth) (view object.now)) }
{
    match present(object, name) {
        Some(value) => match value.as_bool() {
            Some(read) => Ok(read),
            None => Err(faulty(alloc, name)),
        },
        None => Err(faulty(alloc, name)),
    }
}

/// Any value, which may be missing.
#[tactic(auto, unfolding(crate::specs::Reading::read_as, crate::specs::Reading::cell_at))]
pub(crate) fn value_if(
    alloc: Global,
    object: &Value,
    name: &str,
) -> Result<Option<Value>, MessageFault>
    ensures { Gives (λ o. value_or_none (option_map view o)) result
        (cell_at (optional name.now any_value none) (view object.now)) }
{
    match present(object, name) {
        Some(value) => match value.clone() {
            Ok(own) => Ok(Some(own)),
            Err(_) => Err(MessageFault::NoMemory),
        },
        None => Ok(None),
    }
}
