//! The days that items of the day of month and of the day of week give.
ghost use Rattle.std.specs.Prelude.{◌≡◌, ◌+◌, ◌<◌, ◌≤◌, pos};
ghost use Rattle.jiff_core.specs.Calendar.{days_in_month};
ghost use Rattle.jiff_core.specs.Date.{epoch_day};
ghost use Rattle.cron_schedule.specs.Calendar.{weekday_on, cron_weekday};
ghost use Rattle.cron_schedule.specs.Days.{is_last_workday, nearest_workday, day_in, weekday_in, day_in_field, weekday_in_field};

use super::item::{FieldItem, Item};
use super::sets::is_in_run;
use jiff_core::civil::{Date, days_in_month};

/// How many days lie between the first date of the library and 1970-01-01.
const FIRST_DAYS: u32 = 4_371_587;

/// A day of the calendar from 1970 on.
#[derive(Clone, Copy)]
pub struct Day {
    /// How many days after 1970-01-01.
    pub number: u32,
    pub date: Date,
    /// The length of its month.
    pub length: u32,
    /// 0 for Monday.
    pub weekday: u32,
    pub ghost number_is: { epoch_day date ≡ pos number },
    pub ghost length_is: { length ≡ days_in_month date.year date.month },
    pub ghost weekday_is: { weekday ≡ weekday_on date.year date.month date.day },
}

impl Day {
    fn at(number: u32, date: Date, length: u32) -> Day
        requires bound { number < 100_000 }
        requires number { epoch_day date ≡ pos number }
        requires length { length ≡ days_in_month date.year date.month }
        ensures { result.number ≡ number }
    {
        Day {
            number,
            date,
            length,
            weekday: (number + 3) % 7,
        }
    }

    /// The day that many days after 1970-01-01.
    pub fn of(number: u32) -> Day
        requires { number < 100_000 }
        ensures { result.number ≡ number }
    {
        let date = Date::from_days_since_min(number + FIRST_DAYS);
        Day::at(number, date, days_in_month(date.year, date.month) as u32)
    }

    /// A day of the same month, not before this one.
    pub fn moved_to(self, day: u32) -> Day
        requires bound { self.number < 90_000 }
        requires least { self.date.day ≤ day }
        requires most { day ≤ self.length }
        ensures { result.number + self.date.day ≡ self.number + day }
    {
        let number = self.number + (day - self.date.day as u32);
        let date = Date::constrain(self.date.year, self.date.month, day as u8);
        Day::at(number, date, self.length)
    }

    /// The first day of the next month.
    pub fn next_month(self) -> Day
        requires { self.number < 90_000 }
        ensures { result.number + self.date.day ≡ self.number + self.length + 1 }
    {
        let number = self.number + (self.length - self.date.day as u32) + 1;
        if self.date.month == 12 {
            return Day::of(number);
        }
        let date = Date::constrain(self.date.year, self.date.month + 1, 1);
        Day::at(number, date, days_in_month(date.year, date.month) as u32)
    }

    /// The next day.
    pub fn next(self) -> Day
        requires { self.number < 90_000 }
        ensures { result.number ≡ self.number + 1 }
    {
        let day = self.date.day as u32;
        if day < self.length {
            self.moved_to(day + 1)
        } else {
            self.next_month()
        }
    }
}

/// The weekday as cron texts number it, from 1 for Sunday.
pub fn cron_weekday_of(day: &Day) -> u32
    ensures value { result ≡ cron_weekday day.now.date.year day.now.date.month day.now.date.day }
    ensures bound { result ≤ 7 }
{
    (day.weekday + 1) % 7 + 1
}

fn is_last_workday_of(day: &Day) -> bool
    ensures { result ≡ is_last_workday day.now.date.year day.now.date.month day.now.date.day }
{
    let left = day.length - day.date.day as u32;
    day.weekday < 5 && (left == 0 || day.weekday == 4 && left <= 2)
}

fn nearest_workday_of(day: &Day, n: u32) -> u32
    requires least { 1 ≤ n }
    requires most { n ≤ days_in_month day.now.date.year day.now.date.month }
    ensures { result ≡ nearest_workday day.now.date.year day.now.date.month n }
{
    let weekday = (day.weekday + 35 + n - day.date.day as u32) % 7;
    if weekday == 5 {
        if n == 1 { 3 } else { n - 1 }
    } else if weekday == 6 {
        if n == day.length { n - 2 } else { n + 1 }
    } else {
        n
    }
}

fn is_day_in(item: &Item, day: &Day) -> bool
    ensures { result ≡ day_in item.now day.now.date.year day.now.date.month day.now.date.day }
{
    let d = day.date.day as u32;
    match item {
        Item::Values(run) => is_in_run(1, 31, *run, d),
        Item::Free => true,
        Item::Last(back) => d + *back as u32 == day.length,
        Item::LastWorkday => is_last_workday_of(day),
        Item::Workday(n) => {
            let n = *n as u32;
            n >= 1 && n <= day.length && d == nearest_workday_of(day, n)
        }
        Item::LastWeekday(_) => false,
        Item::NthWeekday(_, _) => false,
    }
}

fn is_weekday_in(item: &Item, day: &Day) -> bool
    ensures { result ≡ weekday_in item.now day.now.date.year day.now.date.month day.now.date.day }
{
    let d = day.date.day as u32;
    let weekday = cron_weekday_of(day);
    match item {
        Item::Values(run) => is_in_run(1, 7, *run, weekday),
        Item::Free => true,
        Item::Last(_) => weekday == 7,
        Item::LastWorkday => false,
        Item::Workday(_) => false,
        Item::LastWeekday(of) => weekday == *of as u32 && day.length < d + 7,
        Item::NthWeekday(of, k) => {
            let end = 7 * *k as u32;
            weekday == *of as u32 && end < d + 7 && d <= end
        }
    }
}

/// Whether the day is in the set of the days of month.
pub fn is_day_in_field(items: &[FieldItem], day: &Day) -> bool
    ensures { result ≡ day_in_field items.now day.now.date.year day.now.date.month day.now.date.day }
{
    items
        .iter()
        .any(|i| i.field == 4 && is_day_in(&i.item, day))
}

/// Whether the day is in the set of the days of week.
pub fn is_weekday_in_field(items: &[FieldItem], day: &Day) -> bool
    ensures { result ≡ weekday_in_field items.now day.now.date.year day.now.date.month day.now.date.day }
{
    items
        .iter()
        .any(|i| i.field == 6 && is_weekday_in(&i.item, day))
}
