//! Sinks of bytes, and two of them in memory.
ghost use Rattle.std.specs.Prelude.{◌≡◌, ℕ, ◌≤◌, ◌<◌, [], min, length, IfOk, OnOk, OnErr, IsTrue, IsErr};
ghost use Rattle.std.specs.Io.{WritesAtMost};
ghost use Rattle.std.specs.Io.KnownBytes.{WriteAppends, Appends};
ghost use Rattle.outside.specs.Causes.{HasCause, Rose};
ghost use Rattle.outside.specs.Streams.{AppendsFront, is_to_fail, after_write};

use super::failed::{Failed, one_more};
use std::alloc::Global;
use std::marker::Model;

/// What bytes are written to.
pub trait Sink {
    ghost use Rattle.std.specs.Prelude.{List, Option, None};

    // The bytes that were taken, where they are told.
    ghost taken: { Self → Option (List ℕ) } = { λ _. None };

    // How often it failed. The count does not fall, and stays at its greatest value.
    ghost faults: { Self → ℕ };

    /// Takes a front of the bytes and answers how many. Taking none of some bytes is counted as a
    /// fault. A failed write takes none.
    fn write(&mut self, bytes: &[u8]) -> Result<usize, Failed>
        ensures bound { WritesAtMost result bytes.now }
        ensures bytes { WriteAppends (taken self.old) (taken self.new) result bytes.now }
        ensures none { IfOk result (λ n. n ≡ 0 → 0 < length bytes.now → Rose (faults self.old) (faults self.new)) }
        ensures cause { HasCause (faults self.old) (faults self.new) result };
}

/// Writes all of the bytes. An `Err` has written a front of them.
pub fn write_whole<O: Sink>(sink: &mut O, bytes: &[u8]) -> Result<(), Failed>
    ensures ok { OnOk result (Appends (O.taken sink.old) (O.taken sink.new) bytes.now) }
    ensures err { OnErr result (AppendsFront (O.taken sink.old) (O.taken sink.new) bytes.now) }
    ensures cause { HasCause (O.faults sink.old) (O.faults sink.new) result }
{
    let mut done = 0;
    while done < bytes.len() {
        let count = sink.write(&bytes[done..])?;
        if count == 0 {
            return Err(Failed);
        }
        done += count;
    }
    Ok(())
}

/// Takes bytes into memory. It fails only for want of memory, which it counts as a fault.
#[derive(Drop)]
pub struct BytesSink {
    bytes: Vec<u8>,
    faults: u64,
}

impl Model for BytesSink {
    ghost use Rattle.std.specs.Prelude.{List, ℕ};
    ghost use Rattle.std.specs.Coded.{coded×, coded_list, coded_ℕ};

    ghost Value = { List ℕ × ℕ };

    ghost coded = { coded× (coded_list coded_ℕ) coded_ℕ };

    ghost view = { λ s. (s.bytes.items, s.faults) };
}

impl BytesSink {
    /// A sink without bytes. It takes no memory.
    pub fn new(alloc: Global) -> BytesSink
        ensures { result ≡ ([], 0) }
    {
        BytesSink {
            bytes: Vec::new(alloc),
            faults: 0,
        }
    }

    /// The bytes that it took.
    pub fn taken(&self) -> &[u8]
        ensures { result.now ≡ self.now.0 }
    {
        self.bytes.as_slice()
    }
}

impl Sink for BytesSink {
    ghost use Rattle.std.specs.Prelude.{Some};

    ghost taken = { λ s. Some s.0 };

    ghost faults = { λ s. s.1 };

    fn write(&mut self, bytes: &[u8]) -> Result<usize, Failed>
        ensures bound { WritesAtMost result bytes.now }
        ensures bytes { WriteAppends (Some self.old.0) (Some self.new.0) result bytes.now }
        ensures none { IfOk result (λ n. n ≡ 0 → 0 < length bytes.now → Rose self.old.1 self.new.1) }
        ensures cause { HasCause self.old.1 self.new.1 result }
        ensures whole { IfOk result (λ n. n ≡ length bytes.now) }
    {
        match self.bytes.extend_from_slice(bytes) {
            Ok(()) => Ok(bytes.len()),
            Err(_) => {
                self.faults = one_more(self.faults);
                Err(Failed)
            }
        }
    }
}

/// Takes bytes into memory, at most a piece of them in a call, with a list of the calls that are to fail.
#[derive(Drop)]
pub struct MemorySink {
    bytes: Vec<u8>,
    piece: usize,
    failing: Vec<u64>,
    calls: u64,
    faults: u64,
}

impl Model for MemorySink {
    ghost use Rattle.outside.specs.Streams.{WriteMemory};

    ghost Value = { WriteMemory };

    ghost view = { λ s. record {
      taken = s.bytes.items;
      piece = s.piece;
      failing = s.failing.items;
      calls = s.calls;
      faults = s.faults;
    } };
}

impl MemorySink {
    /// A sink without bytes, which takes all that it is given. It takes no memory.
    pub fn new(alloc: Global) -> MemorySink
        ensures { result ≡ record { taken = []; piece = usize.MAX; failing = []; calls = 0; faults = 0 } }
    {
        MemorySink {
            bytes: Vec::new(alloc),
            piece: usize::MAX,
            failing: Vec::new(alloc),
            calls: 0,
            faults: 0,
        }
    }

    /// The same with at most `piece` bytes taken in a call; with 0 it takes nothing.
    pub fn in_pieces(mut self, piece: usize) -> MemorySink
        ensures { result ≡ record self { piece = piece } }
    {
        self.piece = piece;
        self
    }

    /// The same with the numbers of the calls that are to fail, counted from 1.
    pub fn failing(mut self, calls: Vec<u64>) -> MemorySink
        ensures { result ≡ record self { failing = calls.items } }
    {
        self.failing = calls;
        self
    }

    /// The bytes that it took.
    pub fn taken(&self) -> &[u8]
        ensures { result.now ≡ self.now.taken }
    {
        self.bytes.as_slice()
    }

    /// How often it failed.
    pub fn faults(&self) -> u64
        ensures { result ≡ self.now.faults }
    {
        self.faults
    }
}

impl Sink for MemorySink {
    ghost use Rattle.std.specs.Prelude.{Some};

    ghost taken = { λ s. Some s.taken };

    ghost faults = { λ s. s.faults };

    fn write(&mut self, bytes: &[u8]) -> Result<usize, Failed>
        ensures bound { WritesAtMost result bytes.now }
        ensures bytes { WriteAppends (Some self.old.taken) (Some self.new.taken) result bytes.now }
        ensures none { IfOk result (λ n. n ≡ 0 → 0 < length bytes.now → Rose self.old.faults self.new.faults) }
        ensures cause { HasCause self.old.faults self.new.faults result }
        ensures fails { IsTrue (is_to_fail self.old.calls self.old.failing) → IsErr result }
        ensures most { IfOk result (λ n. n ≡ min self.old.piece (length bytes.now)) }
        ensures after { self.new ≡ after_write self.old bytes.now result }
    {
        self.calls = one_more(self.calls);
        if self.failing.contains(&self.calls) {
            self.faults = one_more(self.faults);
            return Err(Failed);
        }
        let count = self.piece.min(bytes.len());
        if self.bytes.extend_from_slice(&bytes[..count]).is_err() {
            self.faults = one_more(self.faults);
            return Err(Failed);
        }
        if count == 0 && !bytes.is_empty() {
            self.faults = one_more(self.faults);
        }
        Ok(count)
    }
}
