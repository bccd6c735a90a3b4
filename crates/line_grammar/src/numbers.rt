//! Numbers in decimal digits without sign or leading zeros, within bounds.
ghost use Rattle.std.specs.Prelude.{◌≡◌, ◌+◌, ◌*◌, ◌<◌, Some, None, nat_le, if◌then◌else◌};
ghost use Rattle.line_grammar.specs.Numbers.{number_move};
ghost use Rattle.line_grammar.specs.Lists.{number_before};

use crate::ends::End;

/// A number in decimal digits, within bounds, and the byte behind it.
#[derive(Clone, Copy, PartialEq, Eq)]
pub struct NumberForm {
    /// The least number.
    pub least: u64,
    /// The greatest number.
    pub greatest: u64,
    /// What stands behind 0.
    pub behind_zero: End,
    /// What stands behind every other number.
    pub behind: End,
}

/// How far a number was read.
#[derive(Clone, Copy, PartialEq, Eq)]
pub enum NumberStage {
    /// No digit yet.
    First,
    /// The digit 0.
    Zero,
    /// Digits of this value, which is not 0.
    Value(u64),
}

/// What the next byte of a number does.
#[derive(Clone, Copy, PartialEq, Eq)]
pub enum NumberMove {
    /// One more digit.
    More(NumberStage),
    /// It ends this number.
    Whole(u64),
    /// It may not stand there.
    Wrong,
}

/// The value with one more digit, if that is not above the greatest.
fn grown(n: u64, digit: u64, greatest: u64) -> Option<u64>
    requires { digit < 10 }
    ensures { result ≡ (if nat_le (10 * n + digit) greatest then Some (10 * n + digit) else None) }
{
    if n > greatest / 10 {
        return None;
    }
    let tens = 10 * n;
    if digit > greatest - tens {
        return None;
    }
    Some(tens + digit)
}

impl NumberForm {
    /// The form of a number of a list with so many numbers after it.
    pub(crate) fn before(self, others: u64) -> NumberForm
        ensures { result ≡ number_before others self }
    {
        let end = match others {
            0 => self.behind,
            _ => End::Space,
        };
        NumberForm {
            behind_zero: end,
            behind: end,
            ..self
        }
    }

    /// What a byte does at this stage.
    pub(crate) fn step(self, stage: NumberStage, byte: u8) -> NumberMove
        ensures { result ≡ number_move self stage byte }
    {
        match stage {
            NumberStage::First => self.first(byte),
            NumberStage::Zero => {
                if byte == self.behind_zero.byte() {
                    NumberMove::Whole(0)
                } else {
                    NumberMove::Wrong
                }
            }
            NumberStage::Value(n) => self.later(n, byte),
        }
    }

    fn first(self, byte: u8) -> NumberMove
        ensures { result ≡ number_move self NumberStage.First byte }
    {
        if byte == b'0' {
            return if self.least == 0 {
                NumberMove::More(NumberStage::Zero)
            } else {
                NumberMove::Wrong
            };
        }
        if byte < b'0' || byte > b'9' || u64::from(byte - b'0') > self.greatest {
            return NumberMove::Wrong;
        }
        NumberMove::More(NumberStage::Value(u64::from(byte - b'0')))
    }

    fn later(self, n: u64, byte: u8) -> NumberMove
        ensures { result ≡ number_move self (NumberStage.Value n) byte }
    {
        if byte < b'0' || byte > b'9' {
            return if byte == self.behind.byte() {
                NumberMove::Whole(n)
            } else {
                NumberMove::Wrong
            };
        }
        match grown(n, u64::from(byte - b'0'), self.greatest) {
            Some(m) => NumberMove::More(NumberStage::Value(m)),
            None => NumberMove::Wrong,
        }
    }
}
