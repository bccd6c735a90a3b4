//! Reads the bytes of one item of a cron text.
ghost use Rattle.std.specs.Prelude.{◌≡◌, ◌==◌, ◌<◌, ◌≤◌, ◌^◌, length, position, IfSome, true};
ghost use Rattle.cron_schedule.specs.Number.{number_of};
ghost use Rattle.cron_schedule.specs.Reading.{is_byte, is_letter_at, is_name, month_named, weekday_named, named, within, value_of, step_of, lone, between, range_of, with_step, values_of, day_rule, nth_such, nth_at, weekday_rule, item_of, range_at, values_at};

use super::item::{Item, Run};
use super::number::read_number;
use super::sets::{greatest_value, least_value};

/// Where a byte stands first.
fn index_of(text: &[u8], byte: u8) -> Option<usize>
    ensures value { result ≡ position (λ b. b == byte) text.now }
    ensures inside { IfSome result (λ i. i < length text.now) }
{
    text.iter().position(|b| *b == byte)
}

fn is_the_byte(text: &[u8], byte: u8) -> bool
    ensures { result ≡ is_byte byte text.now }
{
    text.len() == 1 && text[0] == byte
}

fn has_letter(text: &[u8], place: usize, letter: u8) -> bool
    requires { place < length text.now }
    ensures { result ≡ is_letter_at text.now place letter }
{
    text[place].to_ascii_uppercase() == letter
}

fn is_the_name(text: &[u8], name: &[u8]) -> bool
    requires { length name.now ≡ 3 }
    ensures { result ≡ is_name name.now text.now }
{
    text.len() == 3
        && has_letter(text, 0, name[0])
        && has_letter(text, 1, name[1])
        && has_letter(text, 2, name[2])
}

fn read_month(text: &[u8]) -> Option<u16>
    ensures { result ≡ month_named text.now }
{
    if is_the_name(text, b"JAN") {
        Some(1)
    } else if is_the_name(text, b"FEB") {
        Some(2)
    } else if is_the_name(text, b"MAR") {
        Some(3)
    } else if is_the_name(text, b"APR") {
        Some(4)
    } else if is_the_name(text, b"MAY") {
        Some(5)
    } else if is_the_name(text, b"JUN") {
        Some(6)
    } else if is_the_name(text, b"JUL") {
        Some(7)
    } else if is_the_name(text, b"AUG") {
        Some(8)
    } else if is_the_name(text, b"SEP") {
        Some(9)
    } else if is_the_name(text, b"OCT") {
        Some(10)
    } else if is_the_name(text, b"NOV") {
        Some(11)
    } else if is_the_name(text, b"DEC") {
        Some(12)
    } else {
        None
    }
}

fn read_weekday(text: &[u8]) -> Option<u16>
    ensures { result ≡ weekday_named text.now }
{
    if is_the_name(text, b"SUN") {
        Some(1)
    } else if is_the_name(text, b"MON") {
        Some(2)
    } else if is_the_name(text, b"TUE") {
        Some(3)
    } else if is_the_name(text, b"WED") {
        Some(4)
    } else if is_the_name(text, b"THU") {
        Some(5)
    } else if is_the_name(text, b"FRI") {
        Some(6)
    } else if is_the_name(text, b"SAT") {
        Some(7)
    } else {
        None
    }
}

fn read_name(field: u8, text: &[u8]) -> Option<u16>
    ensures { result ≡ named field text.now }
{
    match field {
        5 => read_month(text),
        6 => read_weekday(text),
        _ => None,
    }
}

/// The number that one to four digits give, if it lies within bounds.
fn number_within(low: u32, high: u32, text: &[u8]) -> Option<u16>
    requires { high < 2 ^ 16 }
    ensures { result ≡ within low high (number_of 4 text.now) }
{
    match read_number(4, text) {
        Some(n) if low as u64 <= n && n <= high as u64 => Some(n as u16),
        _ => None,
    }
}

fn read_value(field: u8, text: &[u8]) -> Option<u16>
    ensures { result ≡ value_of field text.now }
{
    match number_within(least_value(field), greatest_value(field), text) {
        Some(n) => Some(n),
        None => read_name(field, text),
    }
}

fn read_step(field: u8, text: &[u8]) -> Option<u16>
    ensures { result ≡ step_of field text.now }
{
    let most = if field == 7 {
        129
    } else {
        greatest_value(field)
    };
    number_within(1, most, text)
}

fn read_lone(field: u8, stepped: bool, text: &[u8]) -> Option<Run>
    ensures { result ≡ lone field stepped (value_of field text.now) }
{
    match read_value(field, text) {
        None => None,
        Some(from) => Some(Run {
            from,
            to: if stepped {
                greatest_value(field) as u16
            } else {
                from
            },
            step: 1,
        }),
    }
}

fn read_between(field: u8, first: &[u8], last: &[u8]) -> Option<Run>
    ensures { result ≡ between field (value_of field first.now) (value_of field last.now) }
{
    match (read_value(field, first), read_value(field, last)) {
        (Some(from), Some(to)) => {
            if field == 7 && to < from {
                None
            } else {
                Some(Run { from, to, step: 1 })
            }
        }
        _ => None,
    }
}

fn read_range(field: u8, stepped: bool, text: &[u8]) -> Option<Run>
    ensures { result ≡ range_of field stepped text.now }
{
    if is_the_byte(text, b'*') {
        return Some(Run {
            from: least_value(field) as u16,
            to: greatest_value(field) as u16,
            step: 1,
        });
    }
    match index_of(text, b'-') {
        None => read_lone(field, stepped, text),
        Some(dash) => read_between(field, &text[..dash], &text[dash + 1..]),
    }
}

fn read_stepped(field: u8, range: &[u8], step: &[u8]) -> Option<Run>
    ensures { result ≡ with_step (range_of field true range.now) (step_of field step.now) }
{
    match (read_range(field, true, range), read_step(field, step)) {
        (Some(run), Some(step)) => Some(Run {
            from: run.from,
            to: run.to,
            step,
        }),
        _ => None,
    }
}

fn read_values(field: u8, text: &[u8]) -> Option<Item>
    ensures { result ≡ values_of field text.now }
{
    let run = match index_of(text, b'/') {
        None => read_range(field, false, text),
        Some(slash) => read_stepped(field, &text[..slash], &text[slash + 1..]),
    };
    match run {
        None => None,
        Some(run) => Some(Item::Values(run)),
    }
}

fn read_day_rule(text: &[u8]) -> Option<Item>
    ensures { result ≡ day_rule text.now }
{
    let length = text.len();
    if length == 0 {
        return None;
    }
    if has_letter(text, 0, b'L') {
        if length == 1 {
            return Some(Item::Last(0));
        }
        if length == 2 && has_letter(text, 1, b'W') {
            return Some(Item::LastWorkday);
        }
        if text[1] == b'-' {
            return match number_within(1, 30, &text[2..]) {
                None => None,
                Some(back) => Some(Item::Last(back)),
            };
        }
        return None;
    }
    if has_letter(text, length - 1, b'W') {
        return match number_within(1, 31, &text[..length - 1]) {
            None => None,
            Some(day) => Some(Item::Workday(day)),
        };
    }
    None
}

fn read_nth(weekday: &[u8], k: &[u8]) -> Option<Item>
    ensures { result ≡ nth_such (value_of 6 weekday.now) (within 1 5 (number_of 4 k.now)) }
{
    match (read_value(6, weekday), number_within(1, 5, k)) {
        (Some(weekday), Some(k)) => Some(Item::NthWeekday(weekday, k)),
        _ => None,
    }
}

fn read_numbered(text: &[u8]) -> Option<Item>
    ensures { result ≡ nth_at text.now (position (λ b. b == 35) text.now) }
{
    match index_of(text, b'#') {
        None => None,
        Some(hash) => read_nth(&text[..hash], &text[hash + 1..]),
    }
}

fn read_weekday_rule(text: &[u8]) -> Option<Item>
    ensures { result ≡ weekday_rule text.now }
{
    let length = text.len();
    if length == 0 {
        return None;
    }
    if has_letter(text, length - 1, b'L') {
        if length == 1 {
            return Some(Item::Last(0));
        }
        return match read_value(6, &text[..length - 1]) {
            None => None,
            Some(weekday) => Some(Item::LastWeekday(weekday)),
        };
    }
    read_numbered(text)
}

/// The item of a field that a text gives, if it gives one.
pub fn read_item(field: u8, text: &[u8]) -> Option<Item>
    ensures { result ≡ item_of field text.now }
{
    if (field == 4 || field == 6) && is_the_byte(text, b'?') {
        return Some(Item::Free);
    }
    let rule = match field {
        4 => read_day_rule(text),
        6 => read_weekday_rule(text),
        _ => None,
    };
    match rule {
        Some(item) => Some(item),
        None => read_values(field, text),
    }
}
