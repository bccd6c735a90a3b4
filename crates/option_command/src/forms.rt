//! The forms of the texts that options take.
ghost use Rattle.std.specs.Prelude.{◌≡◌, ◌≤◌, ◌==◌, IfOk, IfErr, map, MatchBool};
ghost use Rattle.std.specs.List.{slice_split};
ghost use Rattle.option_words.specs.Forms.{AreAddresses, IsBase};
ghost use Rattle.option_command.specs.Said.{HasTextForm};
ghost use Rattle.option_command.specs.Refusals.{GivesForm};

use super::refusal::WordsRefusal;
use http_ends::is_address;
use job_values::limits::LONGEST_APP;
use job_values::{Seq, Text};
use std::alloc::{AllocError, Global};

/// The form of a text.
#[derive(Clone, Copy)]
pub(crate) enum TextForm {
    Any,
    /// The name of an application.
    App,
    Address,
    /// A base path.
    Base,
}

/// Whether the text begins and ends with a slash.
fn is_base(text: &str) -> bool
    ensures { MatchBool result (IsBase text.now) (IsBase text.now → ⊥) }
{
    let bytes = text.as_bytes();
    bytes.first() == Some(&b'/') && bytes.last() == Some(&b'/')
}

/// Whether the text has the form.
pub(crate) fn has_form(form: TextForm, text: &str) -> bool
    ensures { MatchBool result (HasTextForm form text.now) (HasTextForm form text.now → ⊥) }
{
    match form {
        TextForm::Any => true,
        TextForm::App => !text.is_empty() && text.len() <= LONGEST_APP,
        TextForm::Address => is_address(text),
        TextForm::Base => is_base(text),
    }
}

/// A text of its own.
pub(crate) fn own(alloc: Global, text: &str) -> Result<Text, WordsRefusal>
    ensures ok { IfOk result (λ t. t ≡ text.now) }
    ensures err { IfErr result (λ e. e ≡ WordsRefusal.Memory) }
{
    match Text::copied(alloc, text) {
        Ok(text) => Ok(text),
        Err(_) => Err(WordsRefusal::Memory),
    }
}

/// The parts of a text between its commas.
fn parts_of(alloc: Global, text: &str) -> Result<Vec<&str>, AllocError>
    ensures { IfOk result (λ parts. map (λ part. part.now) parts.items ≡ slice_split (λ b. b == 44) text.now) }
{
    text.split(',').collect(alloc)
}

/// The addresses between the commas of a text.
pub(crate) fn addresses_in(alloc: Global, text: &str) -> Result<Seq<Text>, WordsRefusal>
    ensures { GivesForm (λ list. (list ≡ slice_split (λ b. b == 44) text.now) × AreAddresses text.now) result }
{
    let Ok(parts) = parts_of(alloc, text) else {
        return Err(WordsRefusal::Memory);
    };
    let mut list = Vec::new(alloc);
    let mut at = 0;
    while at < parts.len() {
        let part = parts[at];
        if !is_address(part) {
            return Err(WordsRefusal::Form);
        }
        if list.push(own(alloc, part)?).is_err() {
            return Err(WordsRefusal::Memory);
        }
        at += 1;
    }
    Ok(Seq::of(list))
}
