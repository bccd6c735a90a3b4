//! From moments to the seconds of the civil clock and back.
ghost use Rattle.std.specs.Prelude.{◌≡◌, ◌+◌, ◌-◌, ◌*◌, ◌/◌, ◌<◌, ◌≤◌, ◌↔◌, ◌⊎◌, IsTrue, false, Some, IfSome, IfNone, pos, ◌+ℤ◌, ◌<ℤ◌, ◌≤ℤ◌};
ghost use Rattle.job_values.specs.declared.limits.TheConstants.{LAST_MOMENT};
ghost use Rattle.cron_schedule.specs.First.{first_in, IsFirst};
ghost use Rattle.cron_schedule.specs.Due.{DueIn, DayDue, is_due, is_due_in, is_utc_due, is_clock_due};
ghost use Rattle.cron_schedule.specs.Civil.{IsUtc, clip};
ghost use Rattle.cron_schedule.specs.Zones.{begin_at, end_at, offset_under, offset_by, IsRule, IsPassing, IsUpToNext};
ghost use Rattle.cron_schedule.specs.After.{most_steps};

use super::cron::{Cron, DAYS, SECONDS};
use super::zones::{Passed, offset_of, offset_past, passed_by, passed_later, stretch_end};
use job_values::steps::Steps;
use job_values::{Moment, Offset};
use std::sync::ledger::Ledger;
use zone_texts::{Zone, ZoneRules};

/// The second of a clock so far ahead of UTC, moved to 1970 or to the end of 2099 where it lies
/// outside.
fn clock_second(utc: u32, offset: Offset) -> u32
    ensures { result ≡ clip (pos utc +ℤ offset) }
{
    let second = utc as i64 + offset.get() as i64;
    if second < 0 {
        0
    } else if second < SECONDS as i64 {
        second as u32
    } else {
        SECONDS
    }
}

/// The second of UTC at a second of a clock so far ahead.
fn utc_second(second: u32, offset: Offset) -> u32
    requires least { offset ≤ℤ pos second }
    requires most { pos second <ℤ (pos SECONDS +ℤ offset) }
    ensures { IsUtc offset second result }
{
    (second as i64 - offset.get() as i64) as u32
}

/// The first second of UTC, of a stretch with one offset, at which a cron text is due.
fn first_between<L: Ledger>(
    cron: &Cron,
    offset: Offset,
    from: u32,
    until: u32,
    steps: &mut Steps<L>,
) -> Option<u32>
    requires from { from ≤ until }
    requires until { until ≤ SECONDS }
    ensures first { IsFirst (λ u. is_clock_due cron.now (pos u +ℤ offset)) from until result }
    ensures cost { 86400 * steps.new ≤ 86400 * steps.old + (until - from) + 172800 }
    ensures days { steps.new ≤ steps.old + DAYS }
{
    let low = clock_second(from, offset);
    let high = clock_second(until, offset);
    match cron.first_below(low, high, steps) {
        None => None,
        Some(second) => Some(utc_second(second, offset)),
    }
}

/// The same of a stretch between two changes of a zone.
fn first_in_stretch<L: Ledger>(
    cron: &Cron,
    standard: Offset,
    rules: &ZoneRules,
    begins: Passed,
    ends: Passed,
    from: u32,
    until: u32,
    steps: &mut Steps<L>,
) -> Option<u32>
    requires begin { IsRule rules.now.begin }
    requires end { IsRule rules.now.end }
    requires begins { IsPassing (begin_at standard rules.now) (pos from) begins }
    requires ends { IsPassing (end_at rules.now) (pos from) ends }
    requires next_begin { IsUpToNext begins until }
    requires next_end { IsUpToNext ends until }
    requires from { from ≤ until }
    requires until { until ≤ SECONDS }
    ensures first { IsFirst (is_utc_due cron.now (offset_under standard rules.now)) from until result }
    ensures cost { 86400 * steps.new ≤ 86400 * steps.old + (until - from) + 172800 }
{
    let offset = offset_past(standard, rules, begins, ends);
    first_between(cron, offset, from, until, steps)
}

/// The first second of UTC from one on, to the end of 2099, at which a cron text is due in a zone
/// with rules: from change to change.
fn first_by_rules<L: Ledger>(
    cron: &Cron,
    standard: Offset,
    rules: &ZoneRules,
    from: u32,
    steps: &mut Steps<L>,
) -> Option<u32>
    requires { from ≤ SECONDS }
    ensures first { IsFirst (is_utc_due cron.now (offset_under standard rules.now)) from SECONDS result }
    ensures cost { steps.new ≤ steps.old + 48526 }
{
    let mut at = from;
    let mut begins = passed_by(&rules.begin, standard, from);
    let mut ends = passed_by(&rules.end, rules.daylight, from);
    while at < SECONDS {
        let until = stretch_end(begins, ends, at);
        if let Some(second) = first_in_stretch(
            cron, standard, rules, begins, ends, at, until, steps,
        ) {
            return Some(second);
        }
        begins = passed_later(&rules.begin, standard, begins, at, until);
        ends = passed_later(&rules.end, rules.daylight, ends, at, until);
        at = until;
    }
    None
}

/// The same in any zone.
fn first_in_zone<L: Ledger>(
    cron: &Cron,
    zone: &Zone,
    from: u32,
    steps: &mut Steps<L>,
) -> Option<u32>
    requires { from ≤ SECONDS }
    ensures first { IsFirst (is_utc_due cron.now (offset_by zone.now.standard zone.now.rules)) from SECONDS result }
    ensures cost { steps.new ≤ steps.old + most_steps zone.now.rules }
{
    match &zone.rules {
        None => first_between(cron, zone.standard, from, SECONDS, steps),
        Some(rules) => first_by_rules(cron, zone.standard, rules, from, steps),
    }
}

/// The moment of a second of UTC.
fn moment_of(second: u32) -> Option<Moment>
    requires { second < SECONDS }
    ensures { result ≡ Some (1000 * second) }
{
    Moment::new(1000 * second as u64)
}

/// The first moment after `t` at which a cron text is due.
pub fn after_cron<L: Ledger>(
    cron: &Cron,
    t: Moment,
    zone: &Zone,
    steps: &mut Steps<L>,
) -> Option<Moment>
    ensures time { result ≡ first_in (is_due_in cron.now zone.now) (t + 1) (LAST_MOMENT + 1) }
    ensures cost { steps.new ≤ steps.old + most_steps zone.now.rules }
{
    let from = (t.get() / 1000 + 1) as u32;
    match first_in_zone(cron, zone, from, steps) {
        None => None,
        Some(second) => moment_of(second),
    }
}

/// The second of the civil clock at a moment; None before 1970 and after 2099.
fn civil_second(t: Moment, offset: Offset) -> Option<u32>
    ensures some { IfSome result (λ second. IsUtc offset second (t / 1000) × (second < SECONDS)) }
    ensures none { IfNone result (((pos (t / 1000) +ℤ offset) <ℤ pos 0) ⊎ (pos SECONDS ≤ℤ (pos (t / 1000) +ℤ offset))) }
{
    let second = (t.get() / 1000) as i64 + offset.get() as i64;
    if second < 0 || second >= SECONDS as i64 {
        None
    } else {
        Some(second as u32)
    }
}

/// Whether a cron text is due at a moment in a zone.
pub fn is_due_at<L: Ledger>(cron: &Cron, t: Moment, zone: &Zone, steps: &mut Steps<L>) -> bool
    ensures { IsTrue result ↔ DueIn cron.now zone.now t }
{
    let offset = offset_of(zone, (t.get() / 1000) as u32);
    is_clock_time_due(cron, t, offset, steps)
}

fn is_clock_time_due<L: Ledger>(
    cron: &Cron,
    t: Moment,
    offset: Offset,
    steps: &mut Steps<L>,
) -> bool
    ensures { result ≡ is_due cron.now offset t }
{
    if t.get() % 1000 != 0 {
        return false;
    }
    match civil_second(t, offset) {
        Some(second) => cron.is_due_in(second, steps),
        None => false,
    }
}

/// The place of a day number from 1970-01-01 to 2099-12-31.
fn day_place(day: i32) -> Option<u32>
    ensures some { IfSome result (λ n. (day ≡ pos n) × (n < DAYS)) }
    ensures none { IfNone result ((day <ℤ pos 0) ⊎ (pos DAYS ≤ℤ day)) }
{
    if day < 0 || day >= DAYS as i32 {
        None
    } else {
        Some(day as u32)
    }
}

/// Whether the civil day with this number is in the four sets of days: one step.
pub fn is_day_in<L: Ledger>(cron: &Cron, day: i32, steps: &mut Steps<L>) -> bool
    ensures due { IsTrue result ↔ DayDue cron.now day }
    ensures cost { steps.new ≡ steps.old + 1 }
{
    match day_place(day) {
        Some(place) => cron.is_due_on(place, steps),
        None => no_day(steps),
    }
}

/// One step that finds nothing.
pub fn no_day<L: Ledger>(steps: &mut Steps<L>) -> bool
    ensures due { result ≡ false }
    ensures cost { steps.new ≡ steps.old + 1 }
{
    steps.tick();
    false
}
