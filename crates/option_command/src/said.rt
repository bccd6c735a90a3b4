//! What stands for an option in the matches of a command.
ghost use Rattle.std.specs.Prelude.{◌≡◌, ◌≤◌, ℕ, ℤ, IfSome, IfNone, option_map};
ghost use Rattle.clap.specs.Words.{first_of, rows_of, found_of};
ghost use Rattle.option_command.specs.Said.{IsNumber, IsOffset, StandsNumber, StandsOffset, StandsText, StandAddresses, HasTextForm};
ghost use Rattle.option_command.specs.Refusals.{GivesForm};

use super::forms::{TextForm, addresses_in, has_form, own};
use super::refusal::WordsRefusal;
use clap::ArgMatches;
use job_values::{Offset, Seq, Text};
use std::alloc::Global;

/// The text that stands for an option.
pub(crate) fn text_of<'a>(matches: &ArgMatches<'a>, name: &str) -> Option<&'a str>
    ensures { option_map (λ s. s.now) result ≡ first_of name.now (rows_of (found_of matches.now)) }
{
    matches.get_str(name)
}

/// The number that a text writes, from `least` to `greatest`.
fn number_in(text: &str, least: u16, greatest: u16) -> Option<u16>
    ensures found { IfSome result (IsNumber least greatest text.now) }
    ensures none { IfNone result ((n : ℕ) → IsNumber least greatest text.now n → ⊥) }
{
    match text.parse::<u16>() {
        Ok(number) => {
            if least <= number && number <= greatest {
                Some(number)
            } else {
                None
            }
        }
        Err(_) => None,
    }
}

/// The offset that a text writes.
fn offset_in(text: &str) -> Option<Offset>
    ensures found { IfSome result (IsOffset text.now) }
    ensures none { IfNone result ((z : ℤ) → IsOffset text.now z → ⊥) }
{
    match text.parse::<i32>() {
        Ok(seconds) => Offset::new(seconds),
        Err(_) => None,
    }
}

/// The number that stands for an option, from 1 to `greatest`.
pub(crate) fn number_of(
    matches: &ArgMatches<'_>,
    name: &str,
    greatest: u16,
) -> Result<u16, WordsRefusal>
    ensures { GivesForm (StandsNumber 1 greatest (first_of name.now (rows_of (found_of matches.now)))) result }
{
    match text_of(matches, name) {
        Some(text) => match number_in(text, 1, greatest) {
            Some(number) => Ok(number),
            None => Err(WordsRefusal::Form),
        },
        None => Err(WordsRefusal::Form),
    }
}

/// The same, where the greatest is a small number.
pub(crate) fn small_number_of(
    matches: &ArgMatches<'_>,
    name: &str,
    greatest: u8,
) -> Result<u8, WordsRefusal>
    ensures { GivesForm (StandsNumber 1 greatest (first_of name.now (rows_of (found_of matches.now)))) result }
{
    match number_of(matches, name, u16::from(greatest)) {
        Ok(number) => Ok(number as u8),
        Err(refusal) => Err(refusal),
    }
}

/// The offset that stands for an option.
pub(crate) fn offset_of(matches: &ArgMatches<'_>, name: &str) -> Result<Offset, WordsRefusal>
    ensures { GivesForm (StandsOffset (first_of name.now (rows_of (found_of matches.now)))) result }
{
    match text_of(matches, name) {
        Some(text) => match offset_in(text) {
            Some(offset) => Ok(offset),
            None => Err(WordsRefusal::Form),
        },
        None => Err(WordsRefusal::Form),
    }
}

/// The text that stands for an option, if it has this form.
pub(crate) fn formed_text_of(
    alloc: Global,
    matches: &ArgMatches<'_>,
    name: &str,
    form: TextForm,
) -> Result<Text, WordsRefusal>
    ensures { GivesForm (StandsText (HasTextForm form) (first_of name.now (rows_of (found_of matches.now)))) result }
{
    match text_of(matches, name) {
        Some(text) => {
            if has_form(form, text) {
                own(alloc, text)
            } else {
                Err(WordsRefusal::Form)
            }
        }
        None => Err(WordsRefusal::Form),
    }
}

/// The addresses that stand for an option.
pub(crate) fn addresses_of(
    alloc: Global,
    matches: &ArgMatches<'_>,
    name: &str,
) -> Result<Seq<Text>, WordsRefusal>
    ensures { GivesForm (StandAddresses (first_of name.now (rows_of (found_of matches.now)))) result }
{
    match text_of(matches, name) {
        Some(text) => addresses_in(alloc, text),
        None => Err(WordsRefusal::Form),
    }
}

/// The text that stands for an option, if there is one.
pub(crate) fn text_if_any(
    alloc: Global,
    matches: &ArgMatches<'_>,
    name: &str,
) -> Result<Option<Text>, WordsRefusal>
    ensures { GivesForm (λ o. first_of name.now (rows_of (found_of matches.now)) ≡ o) result }
{
    match text_of(matches, name) {
        Some(text) => match own(alloc, text) {
            Ok(text) => Ok(Some(text)),
            Err(refusal) => Err(refusal),
        },
        None => Ok(None),
    }
}
