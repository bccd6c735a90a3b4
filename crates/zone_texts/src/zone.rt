//! What a zone text says.
ghost use Rattle.std.specs.Prelude.{◌≡◌, ◌≤◌, length};
ghost use Rattle.zone_texts.specs.Parsed.{zone_parsed};

use crate::reading::read_zone;
use job_values::{Offset, Text, ZoneFault};
use std::marker::Model;

/// When a clock is moved: a weekday of a month, and a time of that day.
#[derive(Clone, Copy, PartialEq, Eq)]
pub struct ChangeRule {
    month: u8,
    week: u8,
    day: u8,
    time: u32,
}

impl Model for ChangeRule {
    ghost use Rattle.std.specs.Prelude.{◌≤◌};
    ghost use Rattle.zone_texts.specs.Changes.{Change};

    ghost Value = { Change };

    ghost view = { λ a. record { month = a.month; week = a.week; day = a.day; time = a.time } };

    ghost invariant = { λ a. (1 ≤ a.month) × (a.month ≤ 12) × (1 ≤ a.week) × (a.week ≤ 5) × (a.day ≤ 6) × (a.time ≤ 89940) };

    ghost inverse = { λ c. record { month = c.month; week = c.week; day = c.day; time = c.time } };
}

impl ChangeRule {
    pub(crate) fn of(month: u8, week: u8, day: u8, time: u32) -> ChangeRule
        requires month { (1 ≤ month) × (month ≤ 12) }
        requires week { (1 ≤ week) × (week ≤ 5) }
        requires day { day ≤ 6 }
        requires time { time ≤ 89940 }
        ensures { result ≡ record { month = month; week = week; day = day; time = time } }
    {
        ChangeRule {
            month,
            week,
            day,
            time,
        }
    }

    /// The month, 1 to 12.
    pub fn month(self) -> u8
        ensures value { result ≡ self.month }
        ensures least { 1 ≤ result }
        ensures most { result ≤ 12 }
    {
        self.month
    }

    /// Which of the days with this weekday it is, 1 to 4, or 5 for the last of the month.
    pub fn week(self) -> u8
        ensures value { result ≡ self.week }
        ensures least { 1 ≤ result }
        ensures most { result ≤ 5 }
    {
        self.week
    }

    /// The weekday, 0 to 6 from Sunday on.
    pub fn day(self) -> u8
        ensures value { result ≡ self.day }
        ensures most { result ≤ 6 }
    {
        self.day
    }

    /// The seconds after midnight, 0 to 89,940: a change may come in the first hour of the next day.
    pub fn time(self) -> u32
        ensures value { result ≡ self.time }
        ensures most { result ≤ 89940 }
    {
        self.time
    }
}

/// How a clock is moved twice a year.
#[derive(Clone, Copy, PartialEq, Eq)]
pub struct ZoneRules {
    /// Seconds east of Greenwich while daylight time holds.
    pub daylight: Offset,
    /// When daylight time begins, by the standard clock.
    pub begin: ChangeRule,
    /// When it ends, by the daylight clock.
    pub end: ChangeRule,
}

/// The offset of a zone's clock, and how it changes.
#[derive(Clone, Copy, PartialEq, Eq)]
pub struct Zone {
    /// Seconds east of Greenwich: of the standard clock where there are rules, else of the one clock.
    pub standard: Offset,
    /// How the clock is moved; none where it never is.
    pub rules: Option<ZoneRules>,
}

impl Zone {
    /// The given offset for the empty text, and the zone of each zone text. Every other text is
    /// refused at one past its longest prefix that begins some zone text. It takes no memory.
    #[tactic(auto, unfolding(crate::specs::Parsed::zone_parsed))]
    pub fn parse(text: &Text, offset: Offset) -> Result<Zone, ZoneFault>
        ensures { result ≡ zone_parsed text.now offset }
    {
        let bytes = text.as_bytes();
        if bytes.is_empty() {
            return Ok(Zone {
                standard: offset,
                rules: None,
            });
        }
        match read_zone(bytes) {
            Ok(zone) => Ok(zone),
            Err(left) => Err(ZoneFault {
                place: (bytes.len() - left + 1) as u32,
            }),
        }
    }
}
