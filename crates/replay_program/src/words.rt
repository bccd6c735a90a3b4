//! The words of the command line.
ghost use Rattle.std.specs.Prelude.{◌≡◌, ◌≤◌, ◌^◌, map, string_bytes, option_and_then, IfOk, OnErr, IsSome};
ghost use Rattle.replay_program.specs.Words.{settings_said, usual_settings, digits_from, number_said, number_within, in_bounds, offset_said};
ghost use Rattle.replay_program.specs.Next.{kind_said, ask_from, next_said};

use super::limits::{MOST_FAST, MOST_SLOW, MOST_TIMES};
use super::next::Ask;
use cluster_history::Settings;
use job_values::limits::{LAST_MOMENT, LAST_OFFSET};
use job_values::{Moment, NoMemory, Offset, ScheduleKind, Text};
use std::alloc::Global;

/// The settings of `run` alone.
fn usual() -> Settings
    ensures { result ≡ usual_settings }
{
    match Offset::new(0) {
        Some(offset) => Settings {
            offset,
            fast: 8,
            slow: 4,
        },
        None => unreachable!(),
    }
}

/// The number that decimal digits spell; None where a byte is no digit or the number is above the greatest.
fn digits(text: &[u8], greatest: u64) -> Option<u64>
    requires { greatest ≤ 2 ^ 50 }
    ensures { result ≡ option_and_then (in_bounds 0 greatest) (digits_from 0 text.now) }
{
    let mut value: u64 = 0;
    for byte in text {
        if value > greatest {
            return None;
        }
        if !byte.is_ascii_digit() {
            return None;
        }
        value = value * 10 + (*byte - b'0') as u64;
    }
    if value > greatest { None } else { Some(value) }
}

/// The number that a word spells in decimal digits without leading zeros, within bounds.
fn number(word: &[u8], least: u64, greatest: u64) -> Option<u64>
    requires { greatest ≤ 2 ^ 50 }
    ensures { result ≡ number_within least greatest word.now }
{
    let value = match word {
        [] => None,
        [b'0', _, ..] => None,
        _ => digits(word, greatest),
    };
    match value {
        Some(n) if n >= least => Some(n),
        _ => None,
    }
}

/// An offset in seconds, with `-` in front of one behind UTC.
fn offset(word: &[u8]) -> Option<Offset>
    ensures { result ≡ offset_said word.now }
{
    match word {
        [b'-', rest @ ..] => match number(rest, 0, LAST_OFFSET as u64) {
            Some(n) => Offset::new(-(n as i32)),
            None => None,
        },
        _ => match number(word, 0, LAST_OFFSET as u64) {
            Some(n) => Offset::new(n as i32),
            None => None,
        },
    }
}

/// A number of threads.
fn threads(word: &[u8], greatest: u8) -> Option<u8>
    ensures { result ≡ number_within 1 greatest word.now }
{
    match number(word, 1, greatest as u64) {
        Some(n) => Some(n as u8),
        None => None,
    }
}

/// A moment, in milliseconds.
fn moment(word: &[u8]) -> Option<Moment>
    ensures { result ≡ number_within 0 LAST_MOMENT word.now }
{
    match number(word, 0, LAST_MOMENT) {
        Some(n) => Moment::new(n),
        None => None,
    }
}

/// How many times are to be told.
fn times(word: &[u8]) -> Option<u32>
    ensures { result ≡ number_within 1 MOST_TIMES word.now }
{
    match number(word, 1, u64::from(MOST_TIMES)) {
        Some(n) => Some(n as u32),
        None => None,
    }
}

/// A schedule kind.
fn kind(word: &str) -> Option<ScheduleKind>
    ensures { result ≡ kind_said word.now }
{
    if word == "NONE" {
        Some(ScheduleKind::Never)
    } else if word == "CRON" {
        Some(ScheduleKind::Cron)
    } else if word == "FIX_RATE" {
        Some(ScheduleKind::FixRate)
    } else {
        None
    }
}

/// What the words ask for, behind `next`; None exactly where they are out of form.
fn ask_of(
    alloc: Global,
    of_kind: &str,
    text: &str,
    ahead: &str,
    from: &str,
    count: &str,
    zone: &str,
) -> Result<Option<Ask>, NoMemory>
    ensures ask { IfOk result (λ ask. ask ≡ ask_from (kind_said of_kind.now) text.now (offset_said ahead.now) (number_within 0 LAST_MOMENT from.now) (number_within 1 MOST_TIMES count.now) zone.now) }
    // Memory is taken for words in form alone.
    ensures err { OnErr result (IsSome (ask_from (kind_said of_kind.now) text.now (offset_said ahead.now) (number_within 0 LAST_MOMENT from.now) (number_within 1 MOST_TIMES count.now) zone.now)) }
{
    match (
        kind(of_kind),
        offset(ahead.as_bytes()),
        moment(from.as_bytes()),
        times(count.as_bytes()),
    ) {
        (Some(kind), Some(offset), Some(from), Some(count)) => Ok(Some(Ask {
            kind,
            text: Text::copied(alloc, text)?,
            offset,
            from,
            count,
            zone: Text::copied(alloc, zone)?,
        })),
        _ => Ok(None),
    }
}

/// What the words ask for; None exactly where they are not those of `next`.
pub(crate) fn next_of(alloc: Global, words: &[String]) -> Result<Option<Ask>, NoMemory>
    ensures ask { IfOk result (λ ask. ask ≡ next_said (map string_bytes words.now)) }
    // Memory is taken for words in form alone.
    ensures err { OnErr result (IsSome (next_said (map string_bytes words.now))) }
{
    match words {
        [word, kind, text, ahead, from, count] => {
            if word.as_str() == "next" {
                let ask = ask_of(
                    alloc,
                    kind.as_str(),
                    text.as_str(),
                    ahead.as_str(),
                    from.as_str(),
                    count.as_str(),
                    "",
                )?;
                Ok(ask)
            } else {
                Ok(None)
            }
        }
        [word, kind, text, ahead, from, count, zone] => {
            if word.as_str() == "next" {
                let ask = ask_of(
                    alloc,
                    kind.as_str(),
                    text.as_str(),
                    ahead.as_str(),
                    from.as_str(),
                    count.as_str(),
                    zone.as_str(),
                )?;
                Ok(ask)
            } else {
                Ok(None)
            }
        }
        [] => Ok(None),
        [_] => Ok(None),
        [_, _] => Ok(None),
        [_, _, _] => Ok(None),
        [_, _, _, _] => Ok(None),
        [_, _, _, _, _] => Ok(None),
        [_, _, _, _, _, _, _, _, ..] => Ok(None),
    }
}

/// The settings that the words name; None exactly where they are no command.
pub(crate) fn settings_of(words: &[String]) -> Option<Settings>
    ensures { result ≡ settings_said (map string_bytes words.now) }
{
    match words {
        [word] => {
            if word.as_str() == "run" {
                Some(usual())
            } else {
                None
            }
        }
        [word, ahead, fast, slow] => {
            if word.as_str() == "run" {
                let offset = offset(ahead.as_bytes())?;
                let fast = threads(fast.as_bytes(), MOST_FAST)?;
                let slow = threads(slow.as_bytes(), MOST_SLOW)?;
                Some(Settings { offset, fast, slow })
            } else {
                None
            }
        }
        [] => None,
        [_, _] => None,
        [_, _, _] => None,
        [_, _, _, _, _, ..] => None,
    }
}
