//! Texts between quotes, read byte by byte.
ghost use Rattle.std.specs.Prelude.{◌≡◌};
ghost use Rattle.line_grammar.specs.Texts.{tail_of, lead_move, open_move, slash_move, hex_move, stage_behind, text_move};

use crate::ends::End;

/// A text between quotes: characters in UTF-8, where `"` is written `\"`, `\` is `\\` and each
/// character below U+0020 is `\` and two lower-case hexadecimal digits.
#[derive(Clone, Copy, PartialEq, Eq)]
pub struct TextForm {
    /// The least number of bytes.
    pub least: usize,
    /// The greatest number of bytes.
    pub greatest: usize,
    /// What stands behind the text.
    pub behind: End,
}

/// What is still to come of a character: bounds of the next byte, and how many bytes follow it.
#[derive(Clone, Copy, PartialEq, Eq)]
pub struct Tail {
    pub low: u8,
    pub high: u8,
    pub more: u8,
}

/// How far a text was read.
#[derive(Clone, Copy, PartialEq, Eq)]
pub enum TextStage {
    /// Before the first quote.
    Opening,
    /// Between characters.
    Open,
    /// Inside a character of several bytes.
    Inside(Tail),
    /// Behind `\`.
    Slash,
    /// Behind the first digit of an escape, which is 0 or 1: whether it is 1.
    Hex(bool),
    /// Behind the last quote.
    Closed,
}

/// What the next byte of a text does.
#[derive(Clone, Copy, PartialEq, Eq)]
pub enum TextMove {
    /// It says no byte of the text.
    Stay(TextStage),
    /// It says this byte of the text, or ends its saying.
    Add(u8, TextStage),
    /// It ends the text.
    Whole,
    /// It may not stand there.
    Wrong,
}

fn tail_behind(byte: u8) -> Option<Tail>
    ensures { result ≡ tail_of byte }
{
    if byte < 0xc2 {
        return None;
    }
    if byte < 0xe0 {
        return Some(Tail {
            low: 0x80,
            high: 0xbf,
            more: 0,
        });
    }
    if byte == 0xe0 {
        return Some(Tail {
            low: 0xa0,
            high: 0xbf,
            more: 1,
        });
    }
    if byte == 0xed {
        return Some(Tail {
            low: 0x80,
            high: 0x9f,
            more: 1,
        });
    }
    if byte < 0xf0 {
        return Some(Tail {
            low: 0x80,
            high: 0xbf,
            more: 1,
        });
    }
    if byte == 0xf0 {
        return Some(Tail {
            low: 0x90,
            high: 0xbf,
            more: 2,
        });
    }
    if byte < 0xf4 {
        return Some(Tail {
            low: 0x80,
            high: 0xbf,
            more: 2,
        });
    }
    if byte == 0xf4 {
        return Some(Tail {
            low: 0x80,
            high: 0x8f,
            more: 2,
        });
    }
    None
}

fn behind_inside(more: u8) -> TextStage
    ensures { result ≡ stage_behind more }
{
    match more {
        0 => TextStage::Open,
        _ => TextStage::Inside(Tail {
            low: 0x80,
            high: 0xbf,
            more: more - 1,
        }),
    }
}

fn slash(byte: u8) -> TextMove
    ensures { result ≡ slash_move byte }
{
    if byte == b'"' || byte == b'\\' {
        return TextMove::Add(byte, TextStage::Open);
    }
    if byte == b'0' || byte == b'1' {
        return TextMove::Stay(TextStage::Hex(byte == b'1'));
    }
    TextMove::Wrong
}

fn hex(one: bool, byte: u8) -> TextMove
    ensures { result ≡ hex_move one byte }
{
    let sixteens = if one { 16 } else { 0 };
    if byte < b'0' {
        return TextMove::Wrong;
    }
    if byte <= b'9' {
        return TextMove::Add(sixteens + (byte - b'0'), TextStage::Open);
    }
    if byte < b'a' {
        return TextMove::Wrong;
    }
    if byte <= b'f' {
        return TextMove::Add(sixteens + (byte - b'a' + 10), TextStage::Open);
    }
    TextMove::Wrong
}

impl TextForm {
    fn lead(self, len: usize, byte: u8) -> TextMove
        ensures { result ≡ lead_move self len byte (tail_of byte) }
    {
        match tail_behind(byte) {
            None => TextMove::Wrong,
            Some(tail) => {
                let whole = 2 + usize::from(tail.more);
                let room = self.greatest;
                if whole <= room && len <= room - whole {
                    TextMove::Add(byte, TextStage::Inside(tail))
                } else {
                    TextMove::Wrong
                }
            }
        }
    }

    fn open(self, len: usize, byte: u8) -> TextMove
        ensures { result ≡ open_move self len byte }
    {
        if byte == b'"' {
            return if self.least <= len {
                TextMove::Stay(TextStage::Closed)
            } else {
                TextMove::Wrong
            };
        }
        if byte == b'\\' {
            let has_room = len < self.greatest;
            return if has_room {
                TextMove::Stay(TextStage::Slash)
            } else {
                TextMove::Wrong
            };
        }
        if byte < b' ' {
            return TextMove::Wrong;
        }
        if byte < 0x80 {
            return if len < self.greatest {
                TextMove::Add(byte, TextStage::Open)
            } else {
                TextMove::Wrong
            };
        }
        self.lead(len, byte)
    }
    /// What a byte does at this stage, where so many bytes of the text were read.
    pub(crate) fn step(self, stage: TextStage, len: usize, byte: u8) -> TextMove
        ensures { result ≡ text_move self stage len byte }
    {
        match stage {
            TextStage::Opening => {
                if byte == b'"' {
                    TextMove::Stay(TextStage::Open)
                } else {
                    TextMove::Wrong
                }
            }
            TextStage::Open => self.open(len, byte),
            TextStage::Inside(tail) => {
                if byte < tail.low || byte > tail.high {
                    TextMove::Wrong
                } else {
                    TextMove::Add(byte, behind_inside(tail.more))
                }
            }
            TextStage::Slash => slash(byte),
            TextStage::Hex(one) => hex(one, byte),
            TextStage::Closed => {
                if byte == self.behind.byte() {
                    TextMove::Whole
                } else {
                    TextMove::Wrong
                }
            }
        }
    }
}
