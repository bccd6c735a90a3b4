//! The bounds of the words of lines that no value has.

/// The greatest word for a random choice.
pub(crate) const LAST_WORD: u64 = 18446744073709551615;
