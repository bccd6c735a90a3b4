//! The reader of a line, word by word.
ghost use Rattle.std.specs.Prelude.{◌≡◌, ◌≤◌, true, map, length, IfOk};
ghost use Rattle.line_grammar.specs.Reading.{Takes};
ghost use Rattle.line_grammar.specs.Numbers.{is_number_form, number_at};
ghost use Rattle.line_grammar.specs.Choices.{words_at};
ghost use Rattle.line_grammar.specs.Tables.{row_at};
ghost use Rattle.line_grammar.specs.Dashes.{end_words, optional_at, minus, code_at};
ghost use Rattle.line_grammar.specs.Texts.{text_form, is_text_form, text_at};

use crate::choices::behind;
use crate::ends::End;
use crate::faults::ReadError;
use crate::numbers::{NumberForm, NumberMove, NumberStage};
use crate::texts::{TextForm, TextMove, TextStage};
use job_values::{BoundedText, Text};
use std::alloc::Global;

/// Reads words from the front of the bytes that are left. After an error nothing is said of what is
/// left.
#[derive(Drop)]
pub struct Reader<'a> {
    /// The bytes that are left.
    pub rest: &'a [u8],
}

impl Reader<'_> {
    #[tactic(auto, unfolding(crate::specs::Numbers::number_at))]
    fn digits(&mut self, form: NumberForm) -> Result<u64, ReadError>
        ensures { Takes (λ n. n) result self.new.rest.now (number_at form self.old.rest.now) }
    {
        let bytes = self.rest;
        let mut stage = NumberStage::First;
        for (i, byte) in bytes.iter().enumerate() {
            match form.step(stage, *byte) {
                NumberMove::More(next) => stage = next,
                NumberMove::Whole(n) => {
                    self.rest = &bytes[i + 1..];
                    return Ok(n);
                }
                NumberMove::Wrong => return Err(ReadError::Bad(bytes.len() - i)),
            }
        }
        Err(ReadError::Bad(0))
    }
    /// Which of the words stands here, each with the byte behind it.
    #[tactic(auto, unfolding(crate::specs::Choices::words_at))]
    pub fn choice(&mut self, words: &[&str]) -> Result<usize, ReadError>
        ensures { Takes (λ i. i) result self.new.rest.now (words_at (map (λ w. w.now) words.now) self.old.rest.now) }
    {
        let bytes = self.rest;
        let mut least = bytes.len();
        for i in 0..words.len() {
            match behind(words[i].as_bytes(), bytes) {
                Ok(rest) => {
                    self.rest = rest;
                    return Ok(i);
                }
                Err(left) => least = least.min(left),
            }
        }
        Err(ReadError::Bad(least))
    }
    /// The value whose word stands here, each word with the byte behind it.
    #[tactic(auto, unfolding(crate::specs::Tables::row_at))]
    pub fn one_of<T: Copy>(&mut self, rows: &[(&str, T)]) -> Result<T, ReadError>
        ensures { Takes (λ v. v) result self.new.rest.now (row_at (map (λ row. (row.0.now, row.1)) rows.now) self.old.rest.now) }
    {
        let bytes = self.rest;
        let mut least = bytes.len();
        for (word, value) in rows {
            match behind(word.as_bytes(), bytes) {
                Ok(rest) => {
                    self.rest = rest;
                    return Ok(*value);
                }
                Err(left) => least = least.min(left),
            }
        }
        Err(ReadError::Bad(least))
    }
    /// The bytes of a text, without the byte behind it.
    #[tactic(auto, unfolding(crate::specs::Texts::text_at))]
    fn text_bytes(&mut self, alloc: Global, form: TextForm) -> Result<Vec<u8>, ReadError>
        ensures { Takes (λ v. v.items) result self.new.rest.now (text_at form self.old.rest.now) }
    {
        let bytes = self.rest;
        let mut text = Vec::new(alloc);
        let mut stage = TextStage::Opening;
        for (i, byte) in bytes.iter().enumerate() {
            match form.step(stage, text.len(), *byte) {
                TextMove::Stay(next) => stage = next,
                TextMove::Add(said, next) => {
                    text.push(said)?;
                    stage = next;
                }
                TextMove::Whole => {
                    self.rest = &bytes[i + 1..];
                    return Ok(text);
                }
                TextMove::Wrong => return Err(ReadError::Bad(bytes.len() - i)),
            }
        }
        Err(ReadError::Bad(0))
    }
    /// A number and the byte behind it.
    #[tactic(auto, using(crate::proofs::Words::number_within))]
    pub fn number(&mut self, form: NumberForm) -> Result<u64, ReadError>
        requires { is_number_form form ≡ true }
        ensures taken { Takes (λ n. n) result self.new.rest.now (number_at form self.old.rest.now) }
        ensures least { IfOk result (λ n. form.least ≤ n) }
        ensures greatest { IfOk result (λ n. n ≤ form.greatest) }
    {
        let number = self.digits(form)?;
        Ok(number)
    }

    /// A text and the byte behind it.
    #[tactic(auto, using(crate::proofs::Words::text_utf8, crate::proofs::Words::text_within))]
    pub fn text(&mut self, alloc: Global, form: TextForm) -> Result<Text, ReadError>
        requires { is_text_form form ≡ true }
        ensures taken { Takes (λ t. t) result self.new.rest.now (text_at form self.old.rest.now) }
        ensures least { IfOk result (λ t. form.least ≤ length t) }
        ensures greatest { IfOk result (λ t. length t ≤ form.greatest) }
    {
        let bytes = self.text_bytes(alloc, form)?;
        match String::from_utf8(bytes) {
            Ok(text) => Ok(Text::of(text)),
            Err(_) => unreachable!(),
        }
    }

    /// A text within the bounds of its type, and the byte behind it.
    pub fn bounded<const LEAST: usize, const MOST: usize>(
        &mut self,
        alloc: Global,
        behind: End,
    ) -> Result<BoundedText<LEAST, MOST>, ReadError>
        requires { is_text_form (text_form LEAST MOST behind) ≡ true }
        ensures { Takes (λ t. t) result self.new.rest.now (text_at (text_form LEAST MOST behind) self.old.rest.now) }
    {
        let text = self.text(
            alloc,
            TextForm {
                least: LEAST,
                greatest: MOST,
                behind,
            },
        )?;
        Ok(BoundedText::of(text))
    }

    /// The byte that ends a word.
    #[tactic(auto, unfolding(crate::specs::Choices::words_at))]
    fn end(&mut self, end: End) -> Result<usize, ReadError>
        ensures { Takes (λ i. i) result self.new.rest.now (words_at (end_words end) self.old.rest.now) }
    {
        match self.rest {
            [] => Err(ReadError::Bad(0)),
            [byte, rest @ ..] => {
                if *byte != end.byte() {
                    return Err(ReadError::Bad(self.rest.len()));
                }
                self.rest = rest;
                Ok(0)
            }
        }
    }

    /// A text within the bounds of its type, or `-` for none, and the byte behind it.
    #[tactic(auto, unfolding(crate::specs::Dashes::optional_at))]
    pub fn optional_text<const LEAST: usize, const MOST: usize>(
        &mut self,
        alloc: Global,
        behind: End,
    ) -> Result<Option<BoundedText<LEAST, MOST>>, ReadError>
        requires { is_text_form (text_form LEAST MOST behind) ≡ true }
        ensures { Takes (λ t. t) result self.new.rest.now (optional_at (text_form LEAST MOST behind) self.old.rest.now) }
    {
        match self.rest {
            [b'-', rest @ ..] => {
                self.rest = rest;
                self.end(behind)?;
                Ok(None)
            }
            _ => {
                let text = self.bounded(alloc, behind)?;
                Ok(Some(text))
            }
        }
    }

    /// A signed number of 32 bits, `-` before a negative one, and the byte behind it.
    #[tactic(auto, unfolding(crate::specs::Dashes::code_at))]
    pub fn code(&mut self, end: End) -> Result<i32, ReadError>
        ensures { Takes (λ z. z) result self.new.rest.now (code_at end self.old.rest.now) }
    {
        match self.rest {
            [b'-', rest @ ..] => {
                self.rest = rest;
                let number = self.number(NumberForm {
                    least: 1,
                    greatest: 2_147_483_648,
                    behind_zero: end,
                    behind: end,
                })?;
                Ok(negated(number))
            }
            _ => {
                let number = self.number(NumberForm {
                    least: 0,
                    greatest: 2_147_483_647,
                    behind_zero: end,
                    behind: end,
                })?;
                Ok(number as i32)
            }
        }
    }
}

/// The number below 0.
fn negated(number: u64) -> i32
    requires low { 1 ≤ number }
    requires high { number ≤ 2147483648 }
    ensures { result ≡ minus number }
{
    -1 - (number - 1) as i32
}
