//! Random words, and words in memory.
ghost use Rattle.std.specs.Prelude.{◌≡◌, [], ◌∷◌, None, Some, IfOk, IfSome};
ghost use Rattle.std.specs.Io.KnownBytes.{Appends};
ghost use Rattle.program_ports.specs.Words.{moved_on};

use job_values::NoMemory;
use std::alloc::Global;
use std::collections::VecDeque;
use std::marker::Model;

/// Gives words, which may be random. It never fails.
pub trait Words: Drop {
    ghost use Rattle.std.specs.Prelude.{List, ℕ, Option, None};

    // The words so far, where they are told.
    ghost words: { Self → Option (List ℕ) } = { λ _. None };

    /// The next word.
    fn word(&mut self) -> u64
        ensures { Appends (words self.old) (words self.new) (result ∷ []) };

    /// One more of the same kind for another thread, with words of its own.
    fn another(&mut self) -> Result<Self, NoMemory>
        ensures { IfOk result (λ w. IfSome (words self.old) (λ _. words w ≡ Some [])) };
}

/// Words in memory, in order, the last again and again. It doesn't tell its words.
#[derive(Drop)]
pub struct MemoryWords {
    alloc: Global,
    next: u64,
    coming: VecDeque<u64>,
}

impl Model for MemoryWords {
    ghost use Rattle.program_ports.specs.Words.{WordsView};

    ghost Value = { WordsView };

    ghost view = { λ w. record { next = w.next; coming = w.coming.items } };
}

/// Another list of the same words.
fn copied_words(alloc: Global, words: &VecDeque<u64>) -> Result<VecDeque<u64>, NoMemory>
    ensures { IfOk result (λ c. c.items ≡ words.now.items) }
{
    let mut copy = VecDeque::new(alloc);
    for i in 0..words.len() {
        copy.push_back(words[i])?;
    }
    Ok(copy)
}

impl MemoryWords {
    /// Gives this word again and again. It takes no memory.
    pub fn new(alloc: Global, word: u64) -> MemoryWords
        ensures { result ≡ record { next = word; coming = [] } }
    {
        MemoryWords {
            alloc,
            next: word,
            coming: VecDeque::new(alloc),
        }
    }

    /// The same with these words behind the one that comes next.
    pub fn before(mut self, words: VecDeque<u64>) -> MemoryWords
        ensures { result ≡ record self { coming = words.items } }
    {
        self.coming = words;
        self
    }
}

impl Words for MemoryWords {
    fn word(&mut self) -> u64
        ensures given { result ≡ self.old.next }
        ensures after { self.new ≡ moved_on self.old }
    {
        let word = self.next;
        if let Some(next) = self.coming.pop_front() {
            self.next = next;
        }
        word
    }

    fn another(&mut self) -> Result<MemoryWords, NoMemory>
        ensures same { IfOk result (λ w. w ≡ self.old) }
        ensures left { self.new ≡ self.old }
    {
        Ok(MemoryWords {
            alloc: self.alloc,
            next: self.next,
            coming: copied_words(self.alloc, &self.coming)?,
        })
    }
}
