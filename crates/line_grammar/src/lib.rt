//! Lines of bytes as one language: words with one spelling each, grammars whose branches depend on
//! what a word says, a reader that stops at the exact column, and writers of the words.
#![tactic(auto)]

mod choices;
mod ends;
mod faults;
pub mod laws;
mod lists;
mod numbers;
mod reading;
mod texts;
mod writing;

pub use ends::End;
pub use faults::ReadError;
pub use numbers::{NumberForm, NumberMove, NumberStage};
pub use reading::Reader;
pub use texts::{Tail, TextForm, TextMove, TextStage};
pub use writing::{
    write_bounded, write_byte, write_number, write_optional, write_signed, write_text, write_texts,
    write_word,
};

#[cfg(test)]
mod tests;
