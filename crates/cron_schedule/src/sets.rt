//! The sets of values that items give, and tables that find the next value of a set at once.
ghost use Rattle.std.specs.Prelude.{◌≡◌, ℕ, ◌+◌, ◌-◌, ◌^◌, ◌<◌, ◌≤◌, Bool, length};
ghost use Rattle.cron_schedule.specs.Field.{least, greatest};
ghost use Rattle.cron_schedule.specs.Sets.{place, in_run, value_in, in_field};
ghost use Rattle.cron_schedule.specs.First.{IsFirst};
ghost use Rattle.cron_schedule.specs.Tables.{IsFirsts};

use super::item::{FieldItem, Item, Run};

/// The least value of a field.
pub fn least_value(field: u8) -> u32
    ensures { result ≡ least field }
{
    match field {
        7 => 1970,
        4 | 5 | 6 => 1,
        _ => 0,
    }
}

/// The greatest value of a field.
pub fn greatest_value(field: u8) -> u32
    ensures { result ≡ greatest field }
{
    match field {
        7 => 2099,
        6 => 7,
        5 => 12,
        4 => 31,
        3 => 23,
        _ => 59,
    }
}

fn place_of(low: u32, high: u32, from: u32, v: u32) -> u32
    requires high { high < 2 ^ 16 }
    requires value { v < 2 ^ 16 }
    ensures { result ≡ place low high from v }
{
    if from <= v {
        v - from
    } else {
        high.saturating_sub(from) + 1 + v.saturating_sub(low)
    }
}

/// Whether `v` is a value of a run, between a least and a greatest value.
pub fn is_in_run(low: u32, high: u32, run: Run, v: u32) -> bool
    requires { high < 2 ^ 16 }
    ensures { result ≡ in_run low high run v }
{
    if run.step == 0 || v < low || v > high {
        return false;
    }
    let from = run.from as u32;
    let at = place_of(low, high, from, v);
    let end = place_of(low, high, from, run.to as u32);
    at <= end && at % run.step as u32 == 0
}

fn is_value_in(field: u8, item: &Item, v: u32) -> bool
    ensures { result ≡ value_in field item.now v }
{
    let low = least_value(field);
    let high = greatest_value(field);
    match item {
        Item::Values(run) => is_in_run(low, high, *run, v),
        Item::Free => low <= v && v <= high,
        Item::Last(_) => false,
        Item::LastWorkday => false,
        Item::Workday(_) => false,
        Item::LastWeekday(_) => false,
        Item::NthWeekday(_, _) => false,
    }
}

/// Whether `v` is in the set of a field.
pub fn is_in_field(field: u8, items: &[FieldItem], v: u32) -> bool
    ensures { result ≡ in_field field items.now v }
{
    items
        .iter()
        .any(|i| i.field == field && is_value_in(field, &i.item, v))
}

/// For each number below `N`, the first number of a field's set from `start` and it on, or `N - 1`
/// for none: numbers count from `start`.
pub fn table_of<const N: usize>(field: u8, start: u32, items: &[FieldItem]) -> [u8; N]
    requires some { 0 < N }
    requires small { N ≤ 200 }
    requires start { start < 10000 }
    ensures { IsFirsts (λ v. in_field field items.now (start + v)) (N - 1) result }
{
    let mut table = [(N - 1) as u8; N];
    for at in (0..N - 1).rev() {
        table[at] = if is_in_field(field, items, start + at as u32) {
            at as u8
        } else {
            table[at + 1]
        };
    }
    table
}

/// The first number of a table's set from `at` on, if there is one.
pub fn next_in(table: &[u8], size: u32, at: u32) -> Option<u32>
    requires long { length table.now ≡ size + 1 }
    requires within { at ≤ size }
    ensures { (test : ℕ → Bool) → IsFirsts test size table.now → IsFirst test at size result }
{
    let next = table[at as usize] as u32;
    if next < size { Some(next) } else { None }
}

/// Whether a number is in a table's set.
pub fn has(table: &[u8], size: u32, at: u32) -> bool
    requires long { length table.now ≡ size + 1 }
    requires within { at < size }
    ensures { (test : ℕ → Bool) → IsFirsts test size table.now → result ≡ test at }
{
    table[at as usize] as u32 == at
}
