//! The instants at which a zone's clock changes, and its offsets between them.
ghost use Rattle.std.specs.Prelude.{◌≡◌, ℕ, ◌+◌, ◌-◌, ◌<◌, ◌≤◌, ◌⊎◌, ℤ, pos, ◌≤ℤ◌};
ghost use Rattle.jiff_core.specs.Calendar.{IsWithin};
ghost use Rattle.cron_schedule.specs.Zones as Zones;
ghost use Rattle.cron_schedule.specs.Zones.{rule_day, rule_second, change_at, offset_after, offset_under, offset_by, IsRule, IsPassing, IsBeforeNext, IsUpToNext, IsNextReached, IsStretchEnd};

use super::cron::SECONDS;
use jiff_core::civil::{Date, days_in_month};
use job_values::Offset;
use zone_texts::{ChangeRule, Zone, ZoneRules};

/// How many years there are from 1970 to 2099.
const YEARS: u32 = 130;

/// The date of a rule in a year since 1970.
fn rule_date(rule: &ChangeRule, year: u32) -> Date
    requires { year < YEARS }
    ensures year { result.year ≡ pos (1970 + year) }
    ensures month { result.month ≡ rule.now.month }
    ensures day { result.day ≡ rule_day rule.now (pos (1970 + year)) }
    ensures rule { IsRule rule.now }
{
    let first = Date::constrain(1970 + year as i16, rule.month(), 1);
    let from_monday = first.weekday().index();
    let day = (rule.day() + 6 - from_monday) % 7 + 7 * rule.week() - 6;
    let length = days_in_month(first.year, first.month);
    Date::constrain(
        first.year,
        first.month,
        if day <= length { day } else { day - 7 },
    )
}

/// The second of the civil clock, since 1970, at which a rule's date and time come in a year.
fn rule_second_of(rule: &ChangeRule, year: u32) -> i64
    requires { year < YEARS }
    ensures value { result ≡ rule_second rule.now (pos (1970 + year)) }
    ensures bound { IsWithin 1_000_000_000_000 result }
    ensures rule { IsRule rule.now }
{
    let day = rule_date(rule, year).to_unix_epoch_day();
    day as i64 * 86_400 + rule.time() as i64
}

/// The instant, in a year since 1970, at which a clock so far ahead of UTC shows a rule's date and
/// time.
fn change_second(rule: &ChangeRule, offset: Offset, year: u32) -> i64
    requires { year < YEARS }
    ensures value { result ≡ change_at rule.now offset year }
    ensures bound { IsWithin 1_000_000_100_000 result }
    ensures rule { IsRule rule.now }
{
    rule_second_of(rule, year) - offset.get() as i64
}

/// How many of a rule's changes are not above an instant, with the two about it.
#[derive(Clone, Copy)]
pub struct Passed {
    pub count: u32,
    /// The last of these changes, where there is one.
    pub last: i64,
    /// The change after these, where there is one.
    pub next: i64,
}

/// The changes that are not above an instant, where the first so many are known.
fn passed_from(rule: &ChangeRule, offset: Offset, at: u32, known: u32, last: i64) -> Passed
    requires most { known ≤ YEARS }
    requires passed { (k : ℕ) → k < known → change_at rule.now offset k ≤ℤ pos at }
    requires last { 0 < known → last ≡ change_at rule.now offset (known - 1) }
    ensures { IsPassing (change_at rule.now offset) (pos at) result }
{
    let mut last = last;
    for year in known..YEARS {
        let next = change_second(rule, offset, year);
        if next > at as i64 {
            return Passed {
                count: year,
                last,
                next,
            };
        }
        last = next;
    }
    Passed {
        count: YEARS,
        last,
        next: last,
    }
}

/// The changes that are not above a second since 1970.
pub fn passed_by(rule: &ChangeRule, offset: Offset, at: u32) -> Passed
    requires { at ≤ SECONDS }
    ensures passed { IsPassing (change_at rule.now offset) (pos at) result }
    ensures rule { IsRule rule.now }
{
    // No year is longer than 366 days, so that mostly the changes of as many years are past.
    let year = at / 31_622_400;
    let change = change_second(rule, offset, year);
    if change <= at as i64 {
        return passed_from(rule, offset, at, year + 1, change);
    }
    if year > 0 {
        let before = change_second(rule, offset, year - 1);
        if before <= at as i64 {
            return Passed {
                count: year,
                last: before,
                next: change,
            };
        }
    }
    passed_from(rule, offset, at, 0, 0)
}

/// The same, where the changes that are not above an earlier second are known.
pub fn passed_later(rule: &ChangeRule, offset: Offset, passed: Passed, from: u32, at: u32) -> Passed
    requires later { from ≤ at }
    requires passed { IsPassing (change_at rule.now offset) (pos from) passed }
    requires rule { IsRule rule.now }
    ensures { IsPassing (change_at rule.now offset) (pos at) result }
{
    if passed.count == YEARS {
        return passed;
    }
    if passed.next > at as i64 {
        return passed;
    }
    passed_from(rule, offset, at, passed.count + 1, passed.next)
}

/// Whether daylight time holds after these begins and ends.
fn is_daylight_past(begins: Passed, ends: Passed) -> bool
    ensures { result ≡ Zones.is_daylight_past begins ends }
{
    if begins.count == 0 {
        if ends.count == 0 {
            ends.next <= begins.next
        } else {
            false
        }
    } else if ends.count == 0 {
        true
    } else {
        ends.last < begins.last
    }
}

/// The offset after these begins and ends.
pub fn offset_past(standard: Offset, rules: &ZoneRules, begins: Passed, ends: Passed) -> Offset
    ensures { result ≡ offset_after standard rules.now begins ends }
{
    if is_daylight_past(begins, ends) {
        rules.daylight
    } else {
        standard
    }
}

/// The offset by rules at a second since 1970.
fn offset_by_rules(standard: Offset, rules: &ZoneRules, at: u32) -> Offset
    requires { at ≤ SECONDS }
    ensures { result ≡ offset_under standard rules.now (pos at) }
{
    let begins = passed_by(&rules.begin, standard, at);
    let ends = passed_by(&rules.end, rules.daylight, at);
    offset_past(standard, rules, begins, ends)
}

/// The offset of a zone at a second since 1970.
pub fn offset_of(zone: &Zone, at: u32) -> Offset
    requires { at ≤ SECONDS }
    ensures { result ≡ offset_by zone.now.standard zone.now.rules (pos at) }
{
    match &zone.rules {
        None => zone.standard,
        Some(rules) => offset_by_rules(zone.standard, rules, at),
    }
}

/// The second of the next change, or the end of 2099 where that comes before it.
fn next_or_end(passed: Passed, at: u32) -> u32
    requires at { at < SECONDS }
    requires next { IsBeforeNext passed at }
    ensures later { at < result }
    ensures most { result ≤ SECONDS }
    ensures next { IsUpToNext passed result }
    ensures reached { (result ≡ SECONDS) ⊎ IsNextReached passed result }
{
    if passed.count < YEARS && passed.next < SECONDS as i64 {
        passed.next as u32
    } else {
        SECONDS
    }
}

/// The end of the stretch with one offset in which a second lies.
pub fn stretch_end(begins: Passed, ends: Passed, at: u32) -> u32
    requires at { at < SECONDS }
    requires begin { IsBeforeNext begins at }
    requires end { IsBeforeNext ends at }
    ensures { IsStretchEnd begins ends at result }
{
    let begin = next_or_end(begins, at);
    let end = next_or_end(ends, at);
    if begin < end { begin } else { end }
}
