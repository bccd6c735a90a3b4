//! The members of an object, each read as its row says: what is there, and numbers.
ghost use Rattle.std.specs.Prelude.{◌≡◌, ℤ, pos, negsuc, ◌≤ℤ◌, ◌≤◌, Some, None, Err, IfOk, IfSome, option_map, option_and_then, codes};
ghost use Rattle.std.specs.Option.{ForSome};
ghost use Rattle.serde_json.specs.View.{view};
ghost use Rattle.job_values.specs.declared.limits.TheConstants.{LAST_SHARD, LAST_LOG_MOMENT};
ghost use Rattle.api_messages.specs.Members.{Cell, int, whole, not_negative, required, optional, row};
ghost use Rattle.api_messages.specs.Tables.{count, signed, seconds, line_number, milliseconds, log_moment, job_number, log_number};
ghost use Rattle.api_messages.specs.Reading.{Gives, Fails, found, within, whole_in, present, cell_at};

use crate::fault::MessageFault;
use job_values::limits::{
    LAST_JOB_ID, LAST_LINE, LAST_LOG_ID, LAST_LOG_MOMENT, LAST_SECONDS, LAST_SHARD,
};
use job_values::{JobId, LogId, LogMoment, Text};
use serde_json::Value;
use std::alloc::Global;

/// The fault of a member.
pub(crate) fn faulty(alloc: Global, name: &str) -> MessageFault
    ensures { Fails result (found (Err (MessageFault.Member name.now))) }
{
    match Text::copied(alloc, name) {
        Ok(which) => MessageFault::Member { which },
        Err(_) => MessageFault::NoMemory,
    }
}

/// The value of a member, unless it is missing or null.
pub(crate) fn present<'v>(object: &'v Value, name: &str) -> Option<&'v Value>
    ensures { option_map (λ v. view v.now) result ≡ present name.now (view object.now) }
{
    match object.get(name) {
        Some(value) => { if value.is_null() { None } else { Some(value) } }
        None => None,
    }
}

fn within(number: Option<i64>, low: i64, high: i64) -> Option<i64>
    ensures value { result ≡ option_and_then (within low high) number }
    ensures low { IfSome result (λ z. low ≤ℤ z) }
    ensures high { IfSome result (λ z. z ≤ℤ high) }
{
    match number {
        Some(n) => { if low <= n && n <= high { Some(n) } else { None } }
        None => None,
    }
}

/// The whole number from `low` to `high` that a value is.
fn whole_in(value: &Value, low: i64, high: i64) -> Option<i64>
    ensures value { result ≡ whole_in low high (view value.now) }
    ensures low { IfSome result (λ z. low ≤ℤ z) }
    ensures high { IfSome result (λ z. z ≤ℤ high) }
{
    within(value.as_i64(), low, high)
}

/// A whole number from `low` to `high`, or the default of a missing member.
#[tactic(auto, unfolding(crate::specs::Reading::read_as, crate::specs::Reading::cell_at))]
fn number(
    alloc: Global,
    object: &Value,
    name: &str,
    low: i64,
    high: i64,
    missing: Option<i64>,
) -> Result<i64, MessageFault>
    requires low { ForSome missing (λ z. low ≤ℤ z) }
    requires high { ForSome missing (λ z. z ≤ℤ high) }
    ensures value { Gives int result
        (cell_at (row name.now (whole low high) (option_map int missing)) (view object.now)) }
    ensures low { IfOk result (λ z. low ≤ℤ z) }
    ensures high { IfOk result (λ z. z ≤ℤ high) }
{
    match present(object, name) {
        Some(value) => match whole_in(value, low, high) {
            Some(n) => Ok(n),
            None => Err(faulty(alloc, name)),
        },
        None => match missing {
            Some(n) => Ok(n),
            None => Err(faulty(alloc, name)),
        },
    }
}

/// A whole number from `low` to `high`, a negative one read as 0, or the default of a missing member.
#[tactic(auto, unfolding(crate::specs::Reading::read_as, crate::specs::Reading::cell_at))]
fn amount(
    alloc: Global,
    object: &Value,
    name: &str,
    low: i64,
    high: i64,
    missing: i64,
) -> Result<i64, MessageFault>
    requires low { pos 0 ≤ℤ missing }
    requires high { missing ≤ℤ high }
    ensures value { Gives int result
        (cell_at (row name.now (not_negative low high) (Some (int missing))) (view object.now)) }
    ensures low { IfOk result (λ z. pos 0 ≤ℤ z) }
    ensures high { IfOk result (λ z. z ≤ℤ high) }
{
    match present(object, name) {
        Some(value) => match whole_in(value, low, high) {
            Some(n) => Ok(n.max(0)),
            None => Err(faulty(alloc, name)),
        },
        None => Ok(missing),
    }
}

/// The index of a shard, or how many there are.
pub(crate) fn count(
    alloc: Global,
    object: &Value,
    name: &str,
    missing: u32,
) -> Result<u32, MessageFault>
    requires { missing ≤ LAST_SHARD }
    ensures { Gives (λ n. int (pos n)) result
        (cell_at (optional name.now count (int (pos missing))) (view object.now)) }
{
    let last = i64::from(LAST_SHARD);
    let n = number(alloc, object, name, 0, last, Some(i64::from(missing)))?;
    Ok(n as u32)
}

/// A required number of 32 bits with a sign.
pub(crate) fn signed(alloc: Global, object: &Value, name: &str) -> Result<i32, MessageFault>
    ensures { Gives int result (cell_at (required name.now signed) (view object.now)) }
{
    let n = number(alloc, object, name, -2_147_483_648, 2_147_483_647, None)?;
    Ok(n as i32)
}

/// A timeout in seconds, a negative one read as 0, and 0 for a missing one.
pub(crate) fn seconds(alloc: Global, object: &Value, name: &str) -> Result<i32, MessageFault>
    ensures { Gives int result
        (cell_at (optional name.now seconds (int (pos 0))) (view object.now)) }
{
    let last = i64::from(LAST_SECONDS);
    let n = amount(alloc, object, name, -2_147_483_648, last, 0)?;
    Ok(n as i32)
}

/// The number of a line, a negative one read as 0, and 1 for a missing one.
pub(crate) fn line_number(alloc: Global, object: &Value, name: &str) -> Result<i32, MessageFault>
    ensures { Gives int result
        (cell_at (optional name.now line_number (int (pos 1))) (view object.now)) }
{
    let last = i64::from(LAST_LINE);
    let n = amount(alloc, object, name, -2_147_483_648, last, 1)?;
    Ok(n as i32)
}

/// A moment in milliseconds, a negative one read as 0, and 0 for a missing one.
pub(crate) fn milliseconds(alloc: Global, object: &Value, name: &str) -> Result<i64, MessageFault>
    ensures value { Gives int result
        (cell_at (optional name.now milliseconds (int (pos 0))) (view object.now)) }
    ensures low { IfOk result (λ z. pos 0 ≤ℤ z) }
{
    amount(alloc, object, name, i64::MIN, i64::MAX, 0)
}

/// The milliseconds of a moment of a log, a negative one read as 0, and 0 for a missing one.
pub(crate) fn log_milliseconds(
    alloc: Global,
    object: &Value,
    name: &str,
) -> Result<i64, MessageFault>
    ensures value { Gives int result
        (cell_at (optional name.now log_moment (int (pos 0))) (view object.now)) }
    ensures low { IfOk result (λ z. pos 0 ≤ℤ z) }
    ensures high { IfOk result (λ z. z ≤ℤ pos LAST_LOG_MOMENT) }
{
    amount(alloc, object, name, i64::MIN, LAST_LOG_MOMENT as i64, 0)
}

/// A moment of a log, a negative one read as 0, and 0 for a missing one.
pub(crate) fn log_moment(
    alloc: Global,
    object: &Value,
    name: &str,
) -> Result<LogMoment, MessageFault>
    ensures { Gives (λ n. int (pos n)) result
        (cell_at (optional name.now log_moment (int (pos 0))) (view object.now)) }
{
    let n = log_milliseconds(alloc, object, name)?;
    match LogMoment::new(n as u64) {
        Some(moment) => Ok(moment),
        None => unreachable!(),
    }
}

/// The required `jobId`.
pub(crate) fn job_id(alloc: Global, object: &Value) -> Result<JobId, MessageFault>
    ensures { Gives (λ id. int (pos id)) result
        (cell_at (required (codes "jobId") job_number) (view object.now)) }
{
    let n = number(alloc, object, "jobId", 1, i64::from(LAST_JOB_ID), None)?;
    match JobId::new(n as u32) {
        Some(id) => Ok(id),
        None => unreachable!(),
    }
}

/// The required `logId`.
pub(crate) fn log_id(alloc: Global, object: &Value) -> Result<LogId, MessageFault>
    ensures { Gives (λ id. int (pos id)) result
        (cell_at (required (codes "logId") log_number) (view object.now)) }
{
    let n = number(alloc, object, "logId", 1, LAST_LOG_ID as i64, None)?;
    match LogId::new(n as u64) {
        Some(id) => Ok(id),
        None => unreachable!(),
    }
}
