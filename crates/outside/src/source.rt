//! Sources of bytes, and two of them in memory.
ghost use Rattle.std.specs.Prelude.{◌≡◌, ℕ, ◌≤◌, ◌<◌, [], min, length, IfOk, Ok, is_err};
ghost use Rattle.std.specs.Io.{ReadsAtMost};
ghost use Rattle.std.specs.Io.KnownBytes.{ReadConsumes};
ghost use Rattle.outside.specs.Causes.{HasCause};
ghost use Rattle.outside.specs.Streams.{is_to_fail, after_read};

use super::failed::{Failed, one_more};
use std::alloc::Global;
use std::marker::Model;

/// What bytes are read from.
pub trait Source {
    ghost use Rattle.std.specs.Prelude.{List, Option, None};

    // The bytes that are left, where they are told.
    ghost left: { Self → Option (List ℕ) } = { λ _. None };

    // How often it failed. The count does not fall, and stays at its greatest value.
    ghost faults: { Self → ℕ };

    /// Reads bytes to the front of `into` and answers how many; 0 into a slice that is not empty is
    /// the end. A failed read leaves the bytes.
    fn read(&mut self, into: &mut [u8]) -> Result<usize, Failed>
        ensures bound { ReadsAtMost result into.new }
        ensures bytes { ReadConsumes (left self.old) (left self.new) result into.new }
        ensures cause { HasCause (faults self.old) (faults self.new) result };
}

/// Bytes in memory. It never fails.
#[derive(Drop)]
pub struct BytesSource<'a> {
    rest: &'a [u8],
}

impl<'a> Model for BytesSource<'a> {
    ghost use Rattle.std.specs.Prelude.{List, ℕ};
    ghost use Rattle.std.specs.Coded.{coded_list, coded_ℕ};

    ghost Value = { List ℕ };

    ghost coded = { coded_list coded_ℕ };

    ghost view = { λ s. s.rest.now };
}

impl<'a> BytesSource<'a> {
    /// A source of these bytes.
    pub fn new(bytes: &'a [u8]) -> BytesSource<'a>
        ensures { result ≡ bytes.now }
    {
        BytesSource { rest: bytes }
    }
}

impl Source for BytesSource<'_> {
    ghost use Rattle.std.specs.Prelude.{Some};

    ghost left = { λ s. Some s };

    ghost faults = { λ _. 0 };

    fn read(&mut self, into: &mut [u8]) -> Result<usize, Failed>
        ensures bound { ReadsAtMost result into.new }
        ensures bytes { ReadConsumes (Some self.old) (Some self.new) result into.new }
        ensures cause { HasCause 0 0 result }
        ensures most { result ≡ Ok (min (length into.new) (length self.old)) }
    {
        let count = into.len().min(self.rest.len());
        let (front, back) = self.rest.split_at(count);
        into[..count].copy_from_slice(front);
        self.rest = back;
        Ok(count)
    }
}

/// Bytes in memory, at most a piece of them in a call, with a list of the calls that are to fail.
#[derive(Drop)]
pub struct MemorySource<'a> {
    rest: &'a [u8],
    piece: usize,
    failing: Vec<u64>,
    calls: u64,
    faults: u64,
}

impl<'a> Model for MemorySource<'a> {
    ghost use Rattle.std.specs.Prelude.{◌<◌};
    ghost use Rattle.outside.specs.Streams.{ReadMemory};

    ghost Value = { ReadMemory };

    ghost view = { λ s. record {
      left = s.rest.now;
      piece = s.piece;
      failing = s.failing.items;
      calls = s.calls;
      faults = s.faults;
    } };

    ghost invariant = { λ s. 0 < s.piece };
}

impl<'a> MemorySource<'a> {
    /// A source of these bytes, as many of them in a call as there is room for. None of its calls fails.
    pub fn new(alloc: Global, bytes: &'a [u8]) -> MemorySource<'a>
        ensures { result ≡ record { left = bytes.now; piece = usize.MAX; failing = []; calls = 0; faults = 0 } }
    {
        MemorySource {
            rest: bytes,
            piece: usize::MAX,
            failing: Vec::new(alloc),
            calls: 0,
            faults: 0,
        }
    }

    /// The same with at most `piece` bytes in a call.
    pub fn in_pieces(mut self, piece: usize) -> MemorySource<'a>
        requires { 0 < piece }
        ensures { result ≡ record self.entry { piece = piece } }
    {
        self.piece = piece;
        self
    }

    /// The same with the numbers of the calls that are to fail, counted from 1.
    pub fn failing(mut self, calls: Vec<u64>) -> MemorySource<'a>
        ensures { result ≡ record self.entry { failing = calls.items } }
    {
        self.failing = calls;
        self
    }

    /// How often it failed.
    pub fn faults(&self) -> u64
        ensures { result ≡ self.now.faults }
    {
        self.faults
    }
}

impl Source for MemorySource<'_> {
    ghost use Rattle.std.specs.Prelude.{Some};

    ghost left = { λ s. Some s.left };

    ghost faults = { λ s. s.faults };

    fn read(&mut self, into: &mut [u8]) -> Result<usize, Failed>
        ensures bound { ReadsAtMost result into.new }
        ensures bytes { ReadConsumes (Some self.old.left) (Some self.new.left) result into.new }
        ensures cause { HasCause self.old.faults self.new.faults result }
        ensures fails { is_err result ≡ is_to_fail self.old.calls self.old.failing }
        ensures most { IfOk result (λ n. n ≡ min (min self.old.piece (length into.new)) (length self.old.left)) }
        ensures after { self.new ≡ after_read self.old result }
    {
        self.calls = one_more(self.calls);
        if self.failing.contains(&self.calls) {
            self.faults = one_more(self.faults);
            return Err(Failed);
        }
        let count = self.piece.min(into.len()).min(self.rest.len());
        let (front, back) = self.rest.split_at(count);
        into[..count].copy_from_slice(front);
        self.rest = back;
        Ok(count)
    }
}
