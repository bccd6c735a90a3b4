//! Batches of dropped registrations: those that rise by key and value are dropped in one pass over
//! the list.
ghost use Rattle.std.specs.Prelude.{◌≡◌, ◌<◌, ◌≤◌, IsTrue, AllPairs, length, take, vec_len, vec_capacity};
ghost use Rattle.std.specs.List.{list_any};
ghost use Rattle.std.specs.Ordering.{is_eq, is_lt};
ghost use Rattle.rising_rows.specs.Seats.{IsSeat};
ghost use Rattle.job_records.specs.DropBatches.{drops_registration, dropped_row, drop_order, IsBelow, AreRegistryDrops, GoesOn, unregistered};

use super::change::Change;
use super::registry::RegistryRow;
use super::registry_edits::compare_texts;
use std::cmp::Ordering;

/// Whether a change drops a registration.
fn is_registry_drop(change: &Change) -> bool
    ensures { result ≡ drops_registration change.now }
{
    match change {
        Change::DropRegistry { key: _, value: _ } => true,
        _ => false,
    }
}

/// The key of the registration that a change drops.
fn dropped_key(change: &Change) -> &str
    ensures { result.now ≡ (dropped_row change.now).key }
{
    match change {
        Change::DropRegistry { key, value: _ } => key.as_str(),
        _ => "",
    }
}

/// The value of the registration that a change drops.
fn dropped_value(change: &Change) -> &str
    ensures { result.now ≡ (dropped_row change.now).value }
{
    match change {
        Change::DropRegistry { key: _, value } => value.as_str(),
        _ => "",
    }
}

/// How the registration that a change drops compares with a key and a value.
fn compare_drop(change: &Change, key: &str, value: &str) -> Ordering
    ensures { result ≡ drop_order key.now value.now change.now }
{
    compare_texts(dropped_key(change), dropped_value(change), key, value)
}

/// Whether a change drops a lower registration than a later one.
fn is_below(change: &Change, later: &Change) -> bool
    ensures { IsTrue result → IsBelow change.now later.now }
{
    compare_drop(change, dropped_key(later), dropped_value(later)).is_lt()
}

/// Whether a change drops a registration above the one that the change before it drops.
fn goes_on(changes: &[Change], place: usize) -> bool
    requires { place < length changes.now }
    ensures { IsTrue result → GoesOn changes.now place }
{
    let change = &changes[place];
    if !is_registry_drop(change) {
        return false;
    }
    if place == 0 {
        return true;
    }
    is_below(&changes[place - 1], change)
}

/// How many changes at the front drop registrations that rise by key and value.
pub(crate) fn first_registry_drops(changes: &[Change]) -> usize
    ensures within { result ≤ length changes.now }
    ensures drops { AreRegistryDrops (take result changes.now) }
{
    for place in 0..changes.len() {
        if !goes_on(changes, place) {
            return place;
        }
    }
    changes.len()
}

/// The seat of a key and a value among drops that rise: a binary search.
fn drop_seat(drops: &[Change], key: &str, value: &str) -> Result<usize, usize>
    requires { AllPairs IsBelow drops.now }
    ensures { IsSeat (drop_order key.now value.now) drops.now result }
{
    drops.binary_search_by(|drop| compare_drop(drop, key, value))
}

/// Whether one of these changes drops a registration.
fn is_dropped(drops: &[Change], row: &RegistryRow) -> bool
    requires { AllPairs IsBelow drops.now }
    ensures { result ≡ list_any (λ drop. is_eq (drop_order row.now.key row.now.value drop)) drops.now }
{
    match drop_seat(drops, row.key.as_str(), row.value.as_str()) {
        Ok(_) => true,
        Err(_) => false,
    }
}

/// Drops the registrations that these changes drop, in one pass.
pub(crate) fn drop_registrations(rows: &mut Vec<RegistryRow>, drops: &[Change])
    requires { AllPairs IsBelow drops.now }
    ensures rows { rows.new.items ≡ unregistered drops.now rows.old.items }
    ensures capacity { vec_capacity rows.new ≡ vec_capacity rows.old }
    ensures length { vec_len rows.new ≤ vec_len rows.old }
{
    rows.retain(
        |row| -> bool
            requires { AllPairs IsBelow drops.now }
        { !is_dropped(drops, row) },
    );
}
