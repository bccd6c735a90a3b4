//! A cron text's items with tables of their sets, and the search for its due times.
ghost use Rattle.std.specs.Prelude.{◌≡◌, ℕ, ◌+◌, ◌-◌, ◌*◌, ◌/◌, ◌<◌, ◌≤◌, ◌&&◌, ◌⊎◌, ◌↔◌, IsTrue, true, false, IfOk, IfSome, IfNone, pos, ◌<ℤ◌};
ghost use Rattle.cron_schedule.specs.First.{IsFirst, NonePasses};
ghost use Rattle.cron_schedule.specs.Sets.{in_field};
ghost use Rattle.cron_schedule.specs.CronTables.{is_plain, are_plain};
ghost use Rattle.cron_schedule.specs.Days.{year_in_field, day_in_field, weekday_in_field};
ghost use Rattle.cron_schedule.specs.Due.{is_day_due, is_hour_second_due, is_second_due, is_local_due};

use super::days::{Day, cron_weekday_of, is_day_in_field, is_weekday_in_field};
use super::item::{FieldItem, Item};
use super::sets::{has, next_in, table_of};
use jiff_core::civil::Date;
use job_values::steps::Steps;
use job_values::{NoMemory, Seq};
use std::alloc::Global;
use std::marker::Model;
use std::sync::ledger::Ledger;

/// The days from 1970-01-01 to 2099-12-31.
pub const DAYS: u32 = 47_482;

/// The seconds of these days.
pub const SECONDS: u32 = 4_102_444_800;

/// The items of a cron text, each with its field, in the order of the text.
#[derive(Drop)]
pub struct Cron {
    items: Seq<FieldItem>,
    seconds: [u8; 61],
    minutes: [u8; 61],
    hours: [u8; 25],
    days: [u8; 33],
    months: [u8; 14],
    weekdays: [u8; 9],
    years: [u8; 131],
    plain: bool,
}

impl Model for Cron {
    ghost use Rattle.std.specs.Prelude.{List};
    ghost use Rattle.cron_schedule.specs.declared.item.FieldItem.{FieldItem};
    ghost use Rattle.cron_schedule.specs.CronTables.{AgreeWith};

    ghost Value = { List FieldItem };

    ghost view = { λ c. c.items };

    ghost invariant = { λ c. AgreeWith c.items c.seconds c.minutes c.hours c.days c.months c.weekdays c.years c.plain };
}

impl Cron {
    /// The items with their tables. It takes no memory.
    pub fn of(items: Seq<FieldItem>) -> Cron
        ensures { result ≡ items }
    {
        let list = items.as_slice();
        let seconds = table_of::<61>(1, 0, list);
        let minutes = table_of::<61>(2, 0, list);
        let hours = table_of::<25>(3, 0, list);
        let days = table_of::<33>(4, 0, list);
        let months = table_of::<14>(5, 0, list);
        let weekdays = table_of::<9>(6, 0, list);
        let years = table_of::<131>(7, 1970, list);
        let plain = all_plain(list);
        Cron {
            items,
            seconds,
            minutes,
            hours,
            days,
            months,
            weekdays,
            years,
            plain,
        }
    }

    /// Another list of the same items.
    pub fn copy(&self, alloc: Global) -> Result<Cron, NoMemory>
        ensures { IfOk result (λ c. c ≡ self.now) }
    {
        let items = self.items.copy(alloc)?;
        Ok(Cron {
            items,
            seconds: self.seconds,
            minutes: self.minutes,
            hours: self.hours,
            days: self.days,
            months: self.months,
            weekdays: self.weekdays,
            years: self.years,
            plain: self.plain,
        })
    }

    /// Whether the other has the same items.
    pub fn is_same(&self, other: &Cron) -> bool
        ensures { IsTrue result ↔ (self.now ≡ other.now) }
    {
        are_same(self.items.as_slice(), other.items.as_slice())
    }

    fn is_year_in(&self, date: &Date) -> bool
        ensures { result ≡ year_in_field self.now date.now.year }
    {
        match years_since_1970(date) {
            Some(years) => has(&self.years, 130, years),
            None => false,
        }
    }

    fn is_month_in(&self, date: &Date) -> bool
        ensures { result ≡ (year_in_field self.now date.now.year && in_field 5 self.now date.now.month) }
    {
        self.is_year_in(date) && has(&self.months, 13, date.month as u32)
    }

    fn is_date_in(&self, day: &Day) -> bool
        ensures { result ≡ (day_in_field self.now day.now.date.year day.now.date.month day.now.date.day && weekday_in_field self.now day.now.date.year day.now.date.month day.now.date.day) }
    {
        if self.plain {
            return has(&self.days, 32, day.date.day as u32)
                && has(&self.weekdays, 8, cron_weekday_of(day));
        }
        let items = self.items.as_slice();
        is_day_in_field(items, day) && is_weekday_in_field(items, day)
    }

    fn is_due<L: Ledger>(&self, day: &Day, steps: &mut Steps<L>) -> bool
        ensures due { result ≡ is_day_due self.now day.now.number }
        ensures cost { steps.new ≡ steps.old + 1 }
    {
        steps.tick();
        self.is_month_in(&day.date) && self.is_date_in(day)
    }

    /// Whether the day that many days after 1970-01-01 is in the four sets of days: one step.
    pub fn is_due_on<L: Ledger>(&self, day: u32, steps: &mut Steps<L>) -> bool
        requires { day < DAYS }
        ensures due { result ≡ is_day_due self.now day }
        ensures cost { steps.new ≡ steps.old + 1 }
    {
        self.is_due(&Day::of(day), steps)
    }

    fn is_time_due(&self, second: u32) -> bool
        requires { second < 86400 }
        ensures { result ≡ is_second_due self.now second }
    {
        let rest = second % 3600;
        has(&self.hours, 24, second / 3600)
            && has(&self.minutes, 60, rest / 60)
            && has(&self.seconds, 60, rest % 60)
    }

    /// Whether a second of the civil clock, since 1970-01-01T00:00:00, is in the seven sets.
    pub fn is_due_in<L: Ledger>(&self, second: u32, steps: &mut Steps<L>) -> bool
        requires { second < SECONDS }
        ensures { result ≡ is_local_due self.now second }
    {
        self.is_due_on(second / 86_400, steps) && self.is_time_due(second % 86_400)
    }

    fn first_in_hour(&self, from: u32) -> Option<u32>
        requires { from < 3600 }
        ensures { IsFirst (is_hour_second_due self.now) from 3600 result }
    {
        let minute = from / 60;
        if has(&self.minutes, 60, minute) {
            if let Some(second) = next_in(&self.seconds, 60, from % 60) {
                return Some(minute * 60 + second);
            }
        }
        let second = next_in(&self.seconds, 60, 0)?;
        let minute = next_in(&self.minutes, 60, minute + 1)?;
        Some(minute * 60 + second)
    }

    fn first_in_day(&self, from: u32) -> Option<u32>
        requires { from < 86400 }
        ensures { IsFirst (is_second_due self.now) from 86400 result }
    {
        let hour = from / 3600;
        if has(&self.hours, 24, hour) {
            if let Some(second) = self.first_in_hour(from % 3600) {
                return Some(hour * 3600 + second);
            }
        }
        let second = self.first_in_hour(0)?;
        let hour = next_in(&self.hours, 24, hour + 1)?;
        Some(hour * 3600 + second)
    }

    /// A day of the month after this one, or one past its end, with none between in the set of days.
    fn next_date(&self, day: &Day) -> u32
        ensures later { day.now.date.day < result }
        ensures most { result ≤ 32 }
        ensures none { (d : ℕ) → day.now.date.day < d → d < result → day_in_field self.now day.now.date.year day.now.date.month d ≡ false }
    {
        let after = day.date.day as u32 + 1;
        if !self.plain {
            return after;
        }
        match next_in(&self.days, 32, after) {
            Some(next) => next,
            None => 32,
        }
    }

    /// The day itself where it is in the four sets, else a later day, with none in the sets before
    /// it: one step. A month that is in no set, and days of it, are passed over at once.
    fn day_or_later<L: Ledger>(&self, day: Day, steps: &mut Steps<L>) -> Day
        requires { day.number < DAYS }
        ensures due { (result.number ≡ day.number) → is_day_due self.now day.number ≡ true }
        ensures least { day.number ≤ result.number }
        ensures none { NonePasses (is_day_due self.now) day.number result.number }
        ensures bound { result.number ≤ day.number + 31 }
        ensures cost { steps.new ≡ steps.old + 1 }
    {
        steps.tick();
        if !self.is_month_in(&day.date) {
            return day.next_month();
        }
        if self.is_date_in(&day) {
            return day;
        }
        let next = self.next_date(&day);
        if next <= day.length {
            day.moved_to(next)
        } else {
            day.next_month()
        }
    }

    /// The first day that is in the four sets, from one on and below a number.
    fn first_day<L: Ledger>(&self, from: Day, days: u32, steps: &mut Steps<L>) -> Option<u32>
        requires from { from.number ≤ days }
        requires days { days ≤ DAYS }
        ensures first { IsFirst (is_day_due self.now) from.number days result }
        ensures cost { steps.new ≤ steps.old + (days - from.number) }
    {
        let mut day = from;
        while day.number < days {
            let next = self.day_or_later(day, steps);
            if next.number == day.number {
                return Some(day.number);
            }
            day = next;
        }
        None
    }

    fn first_in_days<L: Ledger>(&self, from: u32, days: u32, steps: &mut Steps<L>) -> Option<u32>
        requires from { from < days * 86400 }
        requires days { days ≤ DAYS }
        ensures first { IsFirst (is_local_due self.now) from (days * 86400) result }
        ensures cost { steps.new + from / 86400 ≤ steps.old + days }
    {
        let day = Day::of(from / 86_400);
        if self.is_due(&day, steps) {
            if let Some(second) = self.first_in_day(from % 86_400) {
                return Some(day.number * 86_400 + second);
            }
        }
        let second = self.first_in_day(0)?;
        let day = self.first_day(day.next(), days, steps)?;
        Some(day * 86_400 + second)
    }

    /// The first second of the civil clock from `from` on and below `high`, in seconds since
    /// 1970-01-01T00:00:00, that is in the seven sets. It tests the days of this stretch at most.
    pub fn first_below<L: Ledger>(&self, from: u32, high: u32, steps: &mut Steps<L>) -> Option<u32>
        requires { high ≤ SECONDS }
        ensures first { IsFirst (is_local_due self.now) from high result }
        ensures cost { 86400 * steps.new ≤ 86400 * steps.old + (high - from) + 172800 }
        ensures days { steps.new ≤ steps.old + DAYS }
    {
        if from >= high {
            return None;
        }
        let second = self.first_in_days(from, (high + 86_399) / 86_400, steps)?;
        if second < high { Some(second) } else { None }
    }
}

fn is_same_item(item: FieldItem, other: FieldItem) -> bool
    ensures { IsTrue result ↔ (item ≡ other) }
{
    item == other
}

fn are_same(items: &[FieldItem], others: &[FieldItem]) -> bool
    ensures { IsTrue result ↔ (items.now ≡ others.now) }
{
    if items.len() != others.len() {
        return false;
    }
    for (place, item) in items.iter().enumerate() {
        if !is_same_item(*item, others[place]) {
            return false;
        }
    }
    true
}

fn years_since_1970(date: &Date) -> Option<u32>
    ensures some { IfSome result (λ n. (date.now.year ≡ pos (1970 + n)) × (n < 130)) }
    ensures none { IfNone result ((date.now.year <ℤ pos 1970) ⊎ (pos 2099 <ℤ date.now.year)) }
{
    let year = date.year as i32;
    if year < 1970 || year > 2099 {
        return None;
    }
    Some(year as u32 - 1970)
}

fn is_plain_item(item: &Item) -> bool
    ensures { result ≡ is_plain item.now }
{
    match item {
        Item::Values(_) => true,
        Item::Free => true,
        Item::Last(_) => false,
        Item::LastWorkday => false,
        Item::Workday(_) => false,
        Item::LastWeekday(_) => false,
        Item::NthWeekday(_, _) => false,
    }
}

fn all_plain(items: &[FieldItem]) -> bool
    ensures { result ≡ are_plain items.now }
{
    items.iter().all(|i| is_plain_item(&i.item))
}
