//! The reader of a zone text, part by part. Each part that cannot stand there gives how many bytes
//! are left, from the byte at fault on.
ghost use Rattle.std.specs.Prelude.{◌≡◌, ◌≤◌, ◌+◌, ◌*◌, ◌≤ℤ◌, ◌+ℤ◌, neg_ℤ, pos, Ok, IfOk, IfErr, length};
ghost use Rattle.zone_texts.specs.Grammar.{whole};
ghost use Rattle.zone_texts.specs.ZoneText.{is_second, zone_text};
ghost use Rattle.zone_texts.specs.Reading.{Takes, class_of, name_byte_at, byte_at, skipped, behind_up_to, three_to_eight_at, quoted_at, name_at, digit_at, second_at, number_at, two_digits_at, minutes_at, clock_at, west_at, east_at, offset_at, begins_offset, daylight_at, time_at, rule_at, moved_at, begins_name, moved_or_fixed_at, zone_at, whole_at};

use crate::zone::{ChangeRule, Zone, ZoneRules};
use job_values::Offset;

/// How many hours an offset has at most.
const MOST_HOURS: u32 = 14;

/// The bytes that a name is made of.
#[derive(Clone, Copy, PartialEq, Eq)]
pub enum NameBytes {
    /// Letters alone.
    Letters,
    /// Letters, digits, `+` and `-`.
    Quoted,
}

impl NameBytes {
    fn has(self, byte: u8) -> bool
        ensures { result ≡ class_of self byte }
    {
        match self {
            NameBytes::Letters => is_letter(byte),
            NameBytes::Quoted => {
                is_letter(byte) || byte >= b'0' && byte <= b'9' || byte == b'+' || byte == b'-'
            }
        }
    }
}

fn is_letter(byte: u8) -> bool
    ensures { result ≡ class_of NameBytes.Letters byte }
{
    byte >= b'A' && byte <= b'Z' || byte >= b'a' && byte <= b'z'
}

fn is_offset_start(byte: u8) -> bool
    ensures { result ≡ begins_offset byte }
{
    byte == b'-' || byte == b'+' || byte >= b'0' && byte <= b'9'
}

fn is_name_start(byte: u8) -> bool
    ensures { result ≡ begins_name byte }
{
    byte == b'<' || is_letter(byte)
}

/// Reads parts of a zone text from the front of the bytes that are left. After an error nothing is
/// said of what is left.
#[derive(Drop)]
struct Reader<'a> {
    /// The bytes that are left.
    rest: &'a [u8],
}

impl Reader<'_> {
    fn name_byte(&mut self, class: NameBytes) -> Result<(), usize>
        ensures { Takes (λ x. tt) result self.new.rest.now (name_byte_at class self.old.rest.now) }
    {
        match self.rest {
            [] => Err(0),
            [byte, rest @ ..] => {
                if !class.has(*byte) {
                    return Err(self.rest.len());
                }
                self.rest = rest;
                Ok(())
            }
        }
    }

    fn byte(&mut self, wanted: u8) -> Result<(), usize>
        ensures { Takes (λ x. tt) result self.new.rest.now (byte_at wanted self.old.rest.now) }
    {
        match self.rest {
            [] => Err(0),
            [byte, rest @ ..] => {
                if *byte != wanted {
                    return Err(self.rest.len());
                }
                self.rest = rest;
                Ok(())
            }
        }
    }

    /// Leaves out a byte of the class, if one stands in front: whether it did.
    fn skip(&mut self, class: NameBytes) -> bool
        ensures skips { result ≡ (skipped class self.old.rest.now).0 }
        ensures rest { self.new.rest.now ≡ (skipped class self.old.rest.now).1 }
    {
        match self.rest {
            [byte, rest @ ..] if class.has(*byte) => {
                self.rest = rest;
                true
            }
            _ => false,
        }
    }

    #[tactic(auto, using(crate::proofs::Steps::skip_goes_on, crate::proofs::Steps::skip_ends))]
    fn up_to(&mut self, most: u32, class: NameBytes)
        ensures { self.new.rest.now ≡ behind_up_to most class self.old.rest.now }
    {
        let mut others = most;
        while others > 0 {
            if !self.skip(class) {
                return;
            }
            others -= 1;
        }
    }

    fn three_to_eight(&mut self, class: NameBytes) -> Result<(), usize>
        ensures { Takes (λ x. tt) result self.new.rest.now (three_to_eight_at class self.old.rest.now) }
    {
        self.name_byte(class)?;
        self.name_byte(class)?;
        self.name_byte(class)?;
        self.up_to(5, class);
        Ok(())
    }

    fn quoted(&mut self) -> Result<(), usize>
        ensures { Takes (λ x. tt) result self.new.rest.now (quoted_at self.old.rest.now) }
    {
        self.three_to_eight(NameBytes::Quoted)?;
        self.byte(b'>')?;
        Ok(())
    }

    fn name(&mut self) -> Result<(), usize>
        ensures { Takes (λ x. tt) result self.new.rest.now (name_at self.old.rest.now) }
    {
        match self.rest {
            [b'<', rest @ ..] => {
                self.rest = rest;
                self.quoted()
            }
            _ => self.three_to_eight(NameBytes::Letters),
        }
    }

    fn digit(&mut self, least: u8, most: u8) -> Result<u32, usize>
        requires { most ≤ 9 }
        ensures taken { Takes (λ n. n) result self.new.rest.now (digit_at least most self.old.rest.now) }
        ensures least { IfOk result (λ n. least ≤ n) }
        ensures most { IfOk result (λ n. n ≤ most) }
    {
        match self.rest {
            [] => Err(0),
            [byte, rest @ ..] => {
                if *byte < b'0' || *byte - b'0' < least || *byte - b'0' > most {
                    return Err(self.rest.len());
                }
                self.rest = rest;
                Ok(u32::from(*byte - b'0'))
            }
        }
    }

    fn second(&mut self, most: u32, tens: u32) -> u32
        requires tens { tens ≤ 9 }
        requires most { 9 ≤ most }
        ensures taken { second_at most tens self.old.rest.now ≡ Ok (result, self.new.rest.now) }
        ensures least { tens ≤ result }
        ensures most { result ≤ most }
    {
        match self.rest {
            [byte, rest @ ..] if is_second(most, tens, *byte) => {
                self.rest = rest;
                10 * tens + u32::from(*byte - b'0')
            }
            _ => tens,
        }
    }

    fn number(&mut self, least: u8, most: u32) -> Result<u32, usize>
        requires { 9 ≤ most }
        ensures taken { Takes (λ n. n) result self.new.rest.now (number_at least most self.old.rest.now) }
        ensures least { IfOk result (λ n. least ≤ n) }
        ensures most { IfOk result (λ n. n ≤ most) }
    {
        let tens = self.digit(least, 9)?;
        let number = self.second(most, tens);
        Ok(number)
    }

    fn two_digits(&mut self) -> Result<u32, usize>
        ensures taken { Takes (λ n. n) result self.new.rest.now (two_digits_at self.old.rest.now) }
        ensures most { IfOk result (λ n. n ≤ 59) }
    {
        let tens = self.digit(0, 5)?;
        let ones = self.digit(0, 9)?;
        Ok(10 * tens + ones)
    }

    fn minutes(&mut self) -> Result<u32, usize>
        ensures taken { Takes (λ n. n) result self.new.rest.now (minutes_at self.old.rest.now) }
        ensures most { IfOk result (λ n. n ≤ 59) }
    {
        match self.rest {
            [b':', rest @ ..] => {
                self.rest = rest;
                self.two_digits()
            }
            _ => Ok(0),
        }
    }

    fn clock(&mut self, most: u32) -> Result<u32, usize>
        requires least { 9 ≤ most }
        requires most { most ≤ 24 }
        ensures taken { Takes (λ n. n) result self.new.rest.now (clock_at most self.old.rest.now) }
        ensures most { IfOk result (λ n. n ≤ 3600 * most + 3540) }
    {
        let hours = self.number(0, most)?;
        let minutes = self.minutes()?;
        Ok(3600 * hours + 60 * minutes)
    }

    fn west(&mut self) -> Result<Offset, usize>
        ensures taken { Takes (λ z. z) result self.new.rest.now (west_at self.old.rest.now) }
        ensures most { IfOk result (λ z. z ≤ℤ pos 53940) }
    {
        let seconds = self.clock(MOST_HOURS)?;
        Ok(west_by(seconds))
    }

    fn east(&mut self) -> Result<Offset, usize>
        ensures taken { Takes (λ z. z) result self.new.rest.now (east_at self.old.rest.now) }
        ensures most { IfOk result (λ z. z ≤ℤ pos 53940) }
    {
        let seconds = self.clock(MOST_HOURS)?;
        Ok(east_by(seconds))
    }

    fn offset(&mut self) -> Result<Offset, usize>
        ensures taken { Takes (λ z. z) result self.new.rest.now (offset_at self.old.rest.now) }
        ensures most { IfOk result (λ z. z ≤ℤ pos 53940) }
    {
        match self.rest {
            [b'-', rest @ ..] => {
                self.rest = rest;
                self.east()
            }
            [b'+', rest @ ..] => {
                self.rest = rest;
                self.west()
            }
            _ => self.west(),
        }
    }

    fn daylight(&mut self, standard: Offset) -> Result<Offset, usize>
        requires { standard ≤ℤ pos 53940 }
        ensures { Takes (λ z. z) result self.new.rest.now (daylight_at standard self.old.rest.now) }
    {
        match self.rest {
            [byte, ..] if is_offset_start(*byte) => self.offset(),
            _ => Ok(one_hour_east(standard)),
        }
    }

    fn time(&mut self) -> Result<u32, usize>
        ensures taken { Takes (λ n. n) result self.new.rest.now (time_at self.old.rest.now) }
        ensures most { IfOk result (λ n. n ≤ 89940) }
    {
        match self.rest {
            [b'/', rest @ ..] => {
                self.rest = rest;
                self.clock(24)
            }
            _ => Ok(7200),
        }
    }

    fn rule(&mut self) -> Result<ChangeRule, usize>
        ensures { Takes (λ r. r) result self.new.rest.now (rule_at self.old.rest.now) }
    {
        self.byte(b'M')?;
        let month = self.number(1, 12)?;
        self.byte(b'.')?;
        let week = self.digit(1, 5)?;
        self.byte(b'.')?;
        let day = self.digit(0, 6)?;
        let time = self.time()?;
        Ok(ChangeRule::of(month as u8, week as u8, day as u8, time))
    }

    fn moved(&mut self, standard: Offset) -> Result<Zone, usize>
        requires { standard ≤ℤ pos 53940 }
        ensures { Takes (λ z. z) result self.new.rest.now (moved_at standard self.old.rest.now) }
    {
        self.name()?;
        let daylight = self.daylight(standard)?;
        self.byte(b',')?;
        let begin = self.rule()?;
        self.byte(b',')?;
        let end = self.rule()?;
        Ok(Zone {
            standard,
            rules: Some(ZoneRules {
                daylight,
                begin,
                end,
            }),
        })
    }

    fn moved_or_fixed(&mut self, standard: Offset) -> Result<Zone, usize>
        requires { standard ≤ℤ pos 53940 }
        ensures { Takes (λ z. z) result self.new.rest.now (moved_or_fixed_at standard self.old.rest.now) }
    {
        match self.rest {
            [byte, ..] if is_name_start(*byte) => self.moved(standard),
            _ => Ok(Zone {
                standard,
                rules: None,
            }),
        }
    }

    fn zone(&mut self) -> Result<Zone, usize>
        ensures { Takes (λ z. z) result self.new.rest.now (zone_at self.old.rest.now) }
    {
        self.name()?;
        let standard = self.offset()?;
        let zone = self.moved_or_fixed(standard)?;
        Ok(zone)
    }

    /// A zone text and nothing behind it.
    fn whole(&mut self) -> Result<Zone, usize>
        ensures { result ≡ whole_at self.old.rest.now }
    {
        let zone = self.zone()?;
        match self.rest {
            [] => Ok(zone),
            _ => Err(self.rest.len()),
        }
    }
}

/// Whether the byte is a digit that makes a number with these tens, which is not above the most.
fn is_second(most: u32, tens: u32, byte: u8) -> bool
    requires { tens ≤ 9 }
    ensures { result ≡ is_second most tens byte }
{
    byte >= b'0' && byte <= b'9' && 10 * tens + u32::from(byte - b'0') <= most
}

/// The offset of a clock that shows so many seconds less than that of Greenwich.
fn west_by(seconds: u32) -> Offset
    requires { seconds ≤ 53940 }
    ensures value { result ≡ neg_ℤ (pos seconds) }
    ensures most { result ≤ℤ pos 53940 }
{
    match Offset::new(-(seconds as i32)) {
        Some(offset) => offset,
        None => unreachable!(),
    }
}

/// The offset of a clock that shows so many seconds more.
fn east_by(seconds: u32) -> Offset
    requires { seconds ≤ 53940 }
    ensures { result ≡ pos seconds }
{
    match Offset::new(seconds as i32) {
        Some(offset) => offset,
        None => unreachable!(),
    }
}

fn one_hour_east(standard: Offset) -> Offset
    requires { standard ≤ℤ pos 53940 }
    ensures { result ≡ standard +ℤ pos 3600 }
{
    match Offset::new(standard.get() + 3600) {
        Some(offset) => offset,
        None => unreachable!(),
    }
}

/// The zone that a zone text says, or how many bytes are left, from the byte on behind the longest
/// prefix that begins some zone text.
pub(crate) fn read_zone(bytes: &[u8]) -> Result<Zone, usize>
    ensures value { result ≡ whole zone_text bytes.now }
    ensures left { IfErr result (λ left. left ≤ length bytes.now) }
    ensures near { IfErr result (λ left. length bytes.now ≤ left + 60) }
{
    let mut reader = Reader { rest: bytes };
    reader.whole()
}
