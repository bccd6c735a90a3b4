//! Texts and lists whose length is within bounds.
ghost use Rattle.std.specs.Prelude.{◌≡◌, ◌≤◌, ◌↔◌, ◌&&◌, nat_le, if◌then◌else◌, [], IsTrue, IfOk, IfSome, IfNone, string_bytes, length};

use super::limits::{
    LONGEST_APP, LONGEST_LOG_LINE, LONGEST_NAME, LONGEST_PARAM, LONGEST_RESULT,
    LONGEST_SCHEDULE_GIVEN, MOST_ADDRESSES, MOST_CHILDREN, MOST_HANDLERS,
};
use super::no_memory::NoMemory;
use super::seq::Seq;
use super::text::Text;
use std::alloc::Global;
use std::marker::Model;

/// A text of `LEAST` to `MOST` bytes, which contracts see as its bytes.
#[derive(Drop)]
pub struct BoundedText<const LEAST: usize, const MOST: usize> {
    text: Text,
}

impl<const LEAST: usize, const MOST: usize> Model for BoundedText<LEAST, MOST> {
    ghost use Rattle.std.specs.Prelude.{List, ℕ, length, ◌≤◌};
    ghost use Rattle.std.specs.Coded.{coded_list, coded_ℕ};

    ghost Value = { List ℕ };

    ghost coded = { coded_list coded_ℕ };

    ghost view = { λ t. t.text };

    ghost invariant = { λ t. (LEAST ≤ length t.text) × (length t.text ≤ MOST) };
}

impl<const LEAST: usize, const MOST: usize> BoundedText<LEAST, MOST> {
    /// None exactly where the text has fewer than `LEAST` bytes or more than `MOST`.
    pub fn new(text: Text) -> Option<BoundedText<LEAST, MOST>>
        ensures { result ≡ (if nat_le LEAST (length text) && nat_le (length text) MOST then Some text else None) }
    {
        if LEAST <= text.len() && text.len() <= MOST {
            Some(BoundedText { text })
        } else {
            None
        }
    }

    /// The text of a text that has a length within the bounds.
    pub fn of(text: Text) -> BoundedText<LEAST, MOST>
        requires least { LEAST ≤ length text }
        requires most { length text ≤ MOST }
        ensures { result ≡ text }
    {
        BoundedText { text }
    }

    /// The text.
    pub fn get(&self) -> &Text
        ensures value { result.now ≡ self.now }
        ensures least { LEAST ≤ length self.now }
        ensures most { length self.now ≤ MOST }
    {
        &self.text
    }

    /// The text.
    pub fn as_str(&self) -> &str
        ensures { result.now ≡ self.now }
    {
        self.text.as_str()
    }

    /// The text. It takes no memory.
    pub fn into_text(self) -> Text
        ensures value { result ≡ self.entry }
        ensures least { LEAST ≤ length self.entry }
        ensures most { length self.entry ≤ MOST }
    {
        self.text
    }

    /// Another text with the same bytes.
    pub fn copy(&self, alloc: Global) -> Result<BoundedText<LEAST, MOST>, NoMemory>
        ensures { IfOk result (λ t. t ≡ self.now) }
    {
        Ok(BoundedText {
            text: self.text.copy(alloc)?,
        })
    }
}

/// A list of at most `MOST` elements, which contracts see as its elements.
#[derive(Drop)]
pub struct BoundedSeq<T, const MOST: usize> {
    items: Seq<T>,
}

impl<T, const MOST: usize> Model for BoundedSeq<T, MOST> {
    ghost use Rattle.std.specs.Prelude.{List, ℕ, length, ◌≤◌};
    ghost use Rattle.std.specs.Coded.{coded_list};

    ghost Value = { List T };

    ghost coded = { coded_list T.code };

    ghost view = { λ s. s.items };

    ghost invariant = { λ s. length s.items ≤ MOST };
}

impl<T: Drop, const MOST: usize> BoundedSeq<T, MOST> {
    /// None exactly where the list has more than `MOST` elements.
    pub fn new(items: Seq<T>) -> Option<BoundedSeq<T, MOST>>
        ensures { result ≡ (if nat_le (length items) MOST then Some items else None) }
    {
        if items.len() <= MOST {
            Some(BoundedSeq { items })
        } else {
            None
        }
    }
}

impl<T, const MOST: usize> BoundedSeq<T, MOST> {
    /// The list of a list that has at most `MOST` elements.
    pub fn of(items: Seq<T>) -> BoundedSeq<T, MOST>
        requires { length items ≤ MOST }
        ensures { result ≡ items }
    {
        BoundedSeq { items }
    }

    /// Its elements.
    pub fn as_slice(&self) -> &[T]
        ensures value { result.now ≡ self.now }
        ensures most { length self.now ≤ MOST }
    {
        self.items.as_slice()
    }

    /// How many elements it has.
    pub fn len(&self) -> usize
        ensures value { result ≡ length self.now }
        ensures most { result ≤ MOST }
    {
        self.items.len()
    }

    /// The list.
    pub fn get(&self) -> &Seq<T>
        ensures value { result.now ≡ self.now }
        ensures most { length self.now ≤ MOST }
    {
        &self.items
    }
}

impl<T: Copy, const MOST: usize> BoundedSeq<T, MOST> {
    /// Another list of the same elements.
    pub fn copy(&self, alloc: Global) -> Result<BoundedSeq<T, MOST>, NoMemory>
        ensures { IfOk result (λ s. s ≡ self.now) }
    {
        Ok(BoundedSeq {
            items: self.items.copy(alloc)?,
        })
    }
}

/// The name of an application, which its executors register under.
pub type AppName = BoundedText<1, LONGEST_APP>;

/// The address of an executor.
pub type Address = BoundedText<1, LONGEST_NAME>;

/// The address list of a group.
pub type Addresses = BoundedSeq<Address, MOST_ADDRESSES>;

/// The name of a handler.
pub type HandlerName = BoundedText<0, LONGEST_NAME>;

/// The handler names of an executor.
pub type HandlerNames = BoundedSeq<HandlerName, MOST_HANDLERS>;

/// The text of a schedule as a line gives it; of more than 128 bytes no schedule is read.
pub type ScheduleText = BoundedText<0, LONGEST_SCHEDULE_GIVEN>;

/// The parameter of a job or of a manual firing.
pub type ParamText = BoundedText<0, LONGEST_PARAM>;

/// The text of a result.
pub type ResultText = BoundedText<0, LONGEST_RESULT>;

/// One line of a run's log.
pub type LogLine = BoundedText<0, LONGEST_LOG_LINE>;

/// The group, the key or the value of a registration, as a call gives it.
pub type RegistryText = BoundedText<0, LONGEST_NAME>;

/// The children of a job.
pub type Children = BoundedSeq<super::numbers::JobId, MOST_CHILDREN>;

/// The text of a zone.
pub type ZoneText = BoundedText<0, LONGEST_NAME>;

/// Another list of the same addresses.
pub fn copy_addresses(alloc: Global, addresses: &Addresses) -> Result<Addresses, NoMemory>
    ensures { IfOk result (λ copies. copies ≡ addresses.now) }
{
    let mut copies: Vec<Address> = Vec::new(alloc);
    for address in addresses.as_slice() {
        let copy = address.copy(alloc)?;
        copies.push(copy)?;
    }
    Ok(Addresses::of(Seq::of(copies)))
}
