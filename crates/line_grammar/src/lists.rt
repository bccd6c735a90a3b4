//! Lists with their count in front.
ghost use Rattle.std.specs.Prelude.{◌≡◌, ◌≤◌, true, length, IfOk};
ghost use Rattle.std.specs.List.{AllByRecursion};
ghost use Rattle.line_grammar.specs.Laws.{IsNumberOf};
ghost use Rattle.line_grammar.specs.Reading.{Takes};
ghost use Rattle.line_grammar.specs.Numbers.{is_number_form};
ghost use Rattle.line_grammar.specs.Texts.{text_form, is_text_form};
ghost use Rattle.line_grammar.specs.Dashes.{number_form};
ghost use Rattle.line_grammar.specs.Lists.{end_before, count_form, texts_at, numbers_at, text_list_at, number_list_at, ended_numbers_at};

use crate::ends::End;
use crate::faults::ReadError;
use crate::numbers::NumberForm;
use crate::reading::Reader;
use job_values::BoundedText;
use std::alloc::Global;

/// The form of a list's count.
fn counting(most: u32, end: End) -> NumberForm
    ensures { result ≡ count_form most end }
{
    NumberForm {
        least: 0,
        greatest: u64::from(most),
        behind_zero: end,
        behind: End::Space,
    }
}

/// The form of a number from `least` to `greatest` with this end.
fn ended(least: u64, greatest: u64, end: End) -> NumberForm
    ensures { result ≡ number_form least greatest end }
{
    NumberForm {
        least,
        greatest,
        behind_zero: end,
        behind: end,
    }
}

/// What stands behind a word of a list with so many words after it.
fn before(others: u64, end: End) -> End
    ensures { result ≡ end_before others end }
{
    match others {
        0 => end,
        _ => End::Space,
    }
}

impl Reader<'_> {
    fn texts<const LEAST: usize, const MOST: usize>(
        &mut self,
        alloc: Global,
        count: u64,
        end: End,
    ) -> Result<Vec<BoundedText<LEAST, MOST>>, ReadError>
        requires { is_text_form (text_form LEAST MOST end) ≡ true }
        ensures { Takes (λ v. v.items) result self.new.rest.now (texts_at (text_form LEAST MOST end) count self.old.rest.now) }
    {
        let mut texts = Vec::new(alloc);
        let mut others = count;
        while others > 0 {
            others -= 1;
            let text = self.bounded(alloc, before(others, end))?;
            texts.push(text)?;
        }
        Ok(texts)
    }

    fn numbers(
        &mut self,
        alloc: Global,
        count: u64,
        form: NumberForm,
    ) -> Result<Vec<u64>, ReadError>
        requires { is_number_form form ≡ true }
        ensures { Takes (λ v. v.items) result self.new.rest.now (numbers_at form count self.old.rest.now) }
    {
        let mut numbers = Vec::new(alloc);
        let mut others = count;
        while others > 0 {
            others -= 1;
            let number = self.number(form.before(others))?;
            numbers.push(number)?;
        }
        Ok(numbers)
    }

    /// A count up to `most`, and that many texts within the bounds of their type. `end` stands
    /// behind the list, and behind a count of 0.
    #[tactic(auto, using(crate::proofs::Spellings::text_list_within))]
    pub fn text_list<const LEAST: usize, const MOST: usize>(
        &mut self,
        alloc: Global,
        most: u32,
        end: End,
    ) -> Result<Vec<BoundedText<LEAST, MOST>>, ReadError>
        requires counts { is_number_form (count_form most end) ≡ true }
        requires texts { is_text_form (text_form LEAST MOST end) ≡ true }
        ensures taken { Takes (λ v. v.items) result self.new.rest.now (text_list_at most (text_form LEAST MOST end) self.old.rest.now) }
        ensures most { IfOk result (λ v. length v.items ≤ most) }
    {
        let texts = self.counted_texts(alloc, most, end)?;
        Ok(texts)
    }

    #[tactic(auto, unfolding(crate::specs::Lists::text_list_at))]
    fn counted_texts<const LEAST: usize, const MOST: usize>(
        &mut self,
        alloc: Global,
        most: u32,
        end: End,
    ) -> Result<Vec<BoundedText<LEAST, MOST>>, ReadError>
        requires counts { is_number_form (count_form most end) ≡ true }
        requires texts { is_text_form (text_form LEAST MOST end) ≡ true }
        ensures { Takes (λ v. v.items) result self.new.rest.now (text_list_at most (text_form LEAST MOST end) self.old.rest.now) }
    {
        let count = self.number(counting(most, end))?;
        let texts = self.texts(alloc, count, end)?;
        Ok(texts)
    }

    #[tactic(auto, unfolding(crate::specs::Lists::number_list_at))]
    fn counted_numbers(
        &mut self,
        alloc: Global,
        most: u32,
        form: NumberForm,
    ) -> Result<Vec<u64>, ReadError>
        requires counts { is_number_form (count_form most form.behind) ≡ true }
        requires numbers { is_number_form form ≡ true }
        ensures { Takes (λ v. v.items) result self.new.rest.now (number_list_at most form self.old.rest.now) }
    {
        let count = self.number(counting(most, form.behind))?;
        let numbers = self.numbers(alloc, count, form)?;
        Ok(numbers)
    }

    /// A count and that many numbers from `least` to `greatest`, and what stands behind them.
    #[tactic(auto, using(crate::proofs::Spellings::ended_numbers_within))]
    pub fn ended_numbers(
        &mut self,
        alloc: Global,
        most: u32,
        least: u64,
        greatest: u64,
    ) -> Result<(End, Vec<u64>), ReadError>
        requires counts { is_number_form (count_form most End.Space) ≡ true }
        requires numbers { is_number_form (number_form least greatest End.Space) ≡ true }
        ensures taken { Takes (λ x. (x.0, x.1.items)) result self.new.rest.now (ended_numbers_at most least greatest self.old.rest.now) }
        ensures most { IfOk result (λ x. length x.1.items ≤ most) }
        ensures within { IfOk result (λ x. AllByRecursion (IsNumberOf (number_form least greatest End.Line)) x.1.items) }
    {
        let said = self.either_end(alloc, most, least, greatest)?;
        Ok(said)
    }

    /// The list that LF ends, or else from the same byte the one that a space ends.
    #[tactic(auto, unfolding(crate::specs::Lists::ended_numbers_at))]
    fn either_end(
        &mut self,
        alloc: Global,
        most: u32,
        least: u64,
        greatest: u64,
    ) -> Result<(End, Vec<u64>), ReadError>
        requires counts { is_number_form (count_form most End.Space) ≡ true }
        requires numbers { is_number_form (number_form least greatest End.Space) ≡ true }
        ensures { Takes (λ x. (x.0, x.1.items)) result self.new.rest.now (ended_numbers_at most least greatest self.old.rest.now) }
    {
        let bytes = self.rest;
        match self.counted_numbers(alloc, most, ended(least, greatest, End::Line)) {
            Ok(numbers) => Ok((End::Line, numbers)),
            Err(ReadError::Memory) => Err(ReadError::Memory),
            Err(ReadError::Bad(left)) => {
                self.rest = bytes;
                match self.counted_numbers(alloc, most, ended(least, greatest, End::Space)) {
                    Ok(numbers) => Ok((End::Space, numbers)),
                    Err(ReadError::Memory) => Err(ReadError::Memory),
                    Err(ReadError::Bad(other)) => Err(ReadError::Bad(left.min(other))),
                }
            }
        }
    }
}
