//! Words written behind the bytes that are there. After an error nothing is said of what stands
//! behind them.
ghost use Rattle.std.specs.Prelude.{◌≡◌, ◌<◌, [], ◌∷◌, ◌++◌, OnOk, IfSome, decimal};
ghost use Rattle.std.specs.Fmt.{signed_decimal};
ghost use Rattle.line_grammar.specs.Texts.{escape, text_form};
ghost use Rattle.line_grammar.specs.Laws.{IsTextOf};
ghost use Rattle.std.specs.List.{AllByRecursion};
ghost use Rattle.line_grammar.specs.Writing.{quoted, optional_text, counted_texts};

use crate::ends::End;
use itoa::Buffer;
use job_values::{BoundedText, NoMemory};

/// Writes one byte.
pub fn write_byte(out: &mut Vec<u8>, byte: u8) -> Result<(), NoMemory>
    ensures { OnOk result (out.new.items ≡ out.old.items ++ byte ∷ []) }
{
    out.push(byte).map_err(|_| NoMemory)?;
    Ok(())
}

/// Writes a fixed word.
pub fn write_word(out: &mut Vec<u8>, word: &str) -> Result<(), NoMemory>
    ensures { OnOk result (out.new.items ≡ out.old.items ++ word.now) }
{
    out.extend_from_slice(word.as_bytes())
        .map_err(|_| NoMemory)?;
    Ok(())
}

/// Writes a number in decimal digits.
pub fn write_number(out: &mut Vec<u8>, number: u64) -> Result<(), NoMemory>
    ensures { OnOk result (out.new.items ≡ out.old.items ++ decimal number) }
{
    let mut buffer = Buffer::new();
    write_word(out, buffer.format(number))
}

/// Writes a number in decimal digits, `-` before a negative one.
pub fn write_signed(out: &mut Vec<u8>, number: i32) -> Result<(), NoMemory>
    ensures { OnOk result (out.new.items ≡ out.old.items ++ signed_decimal number) }
{
    let mut buffer = Buffer::new();
    write_word(out, buffer.format(number))
}

/// Writes one byte of a text.
fn write_escaped(out: &mut Vec<u8>, byte: u8) -> Result<(), NoMemory>
    ensures { OnOk result (out.new.items ≡ out.old.items ++ escape byte) }
{
    match byte {
        b'"' => write_word(out, "\\\""),
        b'\\' => write_word(out, "\\\\"),
        0..=31 => write_control(out, byte),
        _ => write_byte(out, byte),
    }
}

/// Writes a byte below 32 of a text.
fn write_control(out: &mut Vec<u8>, byte: u8) -> Result<(), NoMemory>
    requires { byte < 32 }
    ensures { OnOk result (out.new.items ≡ out.old.items ++ escape byte) }
{
    let low = byte % 16;
    write_byte(out, b'\\')?;
    write_byte(out, b'0' + byte / 16)?;
    write_byte(
        out,
        if low < 10 {
            b'0' + low
        } else {
            b'a' + (low - 10)
        },
    )
}

/// Writes a text between quotes.
pub fn write_text(out: &mut Vec<u8>, text: &str) -> Result<(), NoMemory>
    ensures { OnOk result (out.new.items ≡ out.old.items ++ quoted text.now) }
{
    write_byte(out, b'"')?;
    for byte in text.as_bytes() {
        write_escaped(out, *byte)?;
    }
    write_byte(out, b'"')
}

/// Writes a count and the texts, each behind a space.
pub fn write_texts<const LEAST: usize, const MOST: usize>(
    out: &mut Vec<u8>,
    texts: &[BoundedText<LEAST, MOST>],
) -> Result<(), NoMemory>
    ensures written { OnOk result (out.new.items ≡ out.old.items ++ counted_texts texts.now) }
    ensures within { OnOk result (AllByRecursion (IsTextOf (text_form LEAST MOST End.Line)) texts.now) }
{
    write_number(out, texts.len() as u64)?;
    for text in texts {
        write_byte(out, b' ')?;
        write_bounded(out, text)?;
    }
    Ok(())
}

/// Writes a text between quotes.
pub fn write_bounded<const LEAST: usize, const MOST: usize>(
    out: &mut Vec<u8>,
    text: &BoundedText<LEAST, MOST>,
) -> Result<(), NoMemory>
    ensures written { OnOk result (out.new.items ≡ out.old.items ++ quoted text.now) }
    ensures within { IsTextOf (text_form LEAST MOST End.Line) text.now }
{
    write_text(out, text.get().as_str())
}

/// Writes a text between quotes, or `-` for none.
pub fn write_optional<const LEAST: usize, const MOST: usize>(
    out: &mut Vec<u8>,
    text: &Option<BoundedText<LEAST, MOST>>,
) -> Result<(), NoMemory>
    ensures written { OnOk result (out.new.items ≡ out.old.items ++ optional_text text.now) }
    ensures within { IfSome text.now (IsTextOf (text_form LEAST MOST End.Line)) }
{
    match text {
        None => write_byte(out, b'-'),
        Some(text) => write_bounded(out, text),
    }
}
