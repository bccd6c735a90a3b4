//! Links, which carry bytes both ways, and two of them in memory.
ghost use Rattle.std.specs.Prelude.{◌≡◌, ℕ, ◌≤◌, ◌<◌, ◌||◌, [], min, take, length, nat_lt, IfOk, IsOk, OnOk, OnErr, IsTrue, IsErr, is_err};
ghost use Rattle.std.specs.Io.{ReadsAtMost, WritesAtMost};
ghost use Rattle.std.specs.Io.KnownBytes.{Appends, ReadConsumes, WriteAppends};
ghost use Rattle.outside.specs.Causes.{HasCause, Rose};
ghost use Rattle.outside.specs.Streams.{AppendsFront, is_to_fail};
ghost use Rattle.outside.specs.Links.{ReadGrows, meets_end, after_link_read, after_link_write, renewed_link, fresh_link};

use super::dialed::Shown;
use super::failed::{Failed, one_more};
use job_values::{NoMemory, Seq};
use std::alloc::Global;
use std::marker::Model;

/// What bytes are read from and written to, with one count of faults for both.
pub trait Link: Drop {
    ghost use Rattle.std.specs.Prelude.{List, Option, None, Bool};

    // The bytes that are left to be read, where they are told.
    ghost left: { Self → Option (List ℕ) } = { λ _. None };

    // The bytes that were read so far, where they are told.
    ghost seen: { Self → Option (List ℕ) } = { λ _. None };

    // The bytes that were written so far, where they are told.
    ghost taken: { Self → Option (List ℕ) } = { λ _. None };

    // Whether its end was met: exactly from a read that answered 0 into a nonempty slice on.
    ghost met: { Self → Bool };

    // The place of its dial among the dials of its dialer, counted from 0.
    ghost dial: { Self → ℕ };

    // How often it failed. The count does not fall, and stays at its greatest value.
    ghost faults: { Self → ℕ };

    /// Reads bytes to the front of `into` and answers how many; 0 into a slice that is not empty is
    /// the end. A failed read leaves the bytes.
    fn read(&mut self, into: &mut [u8]) -> Result<usize, Failed>
        ensures bound { ReadsAtMost result into.new }
        ensures bytes { ReadConsumes (left self.old) (left self.new) result into.new }
        ensures grows { ReadGrows (seen self.old) (seen self.new) result into.new }
        ensures end { met self.new ≡ (met self.old || meets_end into.new result) }
        ensures other { taken self.new ≡ taken self.old }
        ensures place { dial self.new ≡ dial self.old }
        ensures cause { HasCause (faults self.old) (faults self.new) result };

    /// Takes a front of the bytes and answers how many. Taking none of some bytes is counted as a
    /// fault. A failed write takes none.
    fn write(&mut self, bytes: &[u8]) -> Result<usize, Failed>
        ensures bound { WritesAtMost result bytes.now }
        ensures bytes { WriteAppends (taken self.old) (taken self.new) result bytes.now }
        ensures other { left self.new ≡ left self.old }
        ensures seen { seen self.new ≡ seen self.old }
        ensures end { met self.new ≡ met self.old }
        ensures place { dial self.new ≡ dial self.old }
        ensures none { IfOk result (λ n. n ≡ 0 → 0 < length bytes.now → Rose (faults self.old) (faults self.new)) }
        ensures cause { HasCause (faults self.old) (faults self.new) result };
}

/// Writes all of the bytes to a link. An `Err` has written a front of them.
pub fn send<L: Link>(link: &mut L, bytes: &[u8]) -> Result<(), Failed>
    ensures ok { OnOk result (Appends (L.taken link.old) (L.taken link.new) bytes.now) }
    ensures err { OnErr result (AppendsFront (L.taken link.old) (L.taken link.new) bytes.now) }
    ensures other { L.left link.new ≡ L.left link.old }
    ensures seen { L.seen link.new ≡ L.seen link.old }
    ensures end { L.met link.new ≡ L.met link.old }
    ensures place { L.dial link.new ≡ L.dial link.old }
    ensures cause { HasCause (L.faults link.old) (L.faults link.new) result }
{
    let mut done = 0;
    while done < bytes.len() {
        let count = link.write(&bytes[done..])?;
        if count == 0 {
            return Err(Failed);
        }
        done += count;
    }
    Ok(())
}

/// Copies a front of the bytes, at most `most` of them, to the front of `into` and answers how many.
fn copy_front(bytes: &[u8], into: &mut [u8], most: usize) -> usize
    ensures count { result ≡ min (min most (length into.old)) (length bytes.now) }
    ensures front { take result into.new ≡ take result bytes.now }
{
    let count = most.min(into.len()).min(bytes.len());
    into[..count].copy_from_slice(&bytes[..count]);
    count
}

/// A link in memory: bytes to be read and a place for bytes, at most a piece of them in a call, with a
/// list of the calls that are to fail. Want of memory in a write is counted as a fault.
#[derive(Drop)]
pub struct MemoryLink {
    bytes: Vec<u8>,
    place: usize,
    taken: Vec<u8>,
    met: bool,
    dial: usize,
    piece: usize,
    room: usize,
    failing: Vec<u64>,
    calls: u64,
    faults: u64,
}

impl Model for MemoryLink {
    ghost use Rattle.std.specs.Prelude.{◌<◌, ◌≤◌, take, drop, length};
    ghost use Rattle.outside.specs.Links.{LinkMemory};

    ghost Value = { LinkMemory };

    ghost view = { λ s. record {
      left = drop s.place s.bytes.items;
      seen = take s.place s.bytes.items;
      taken = s.taken.items;
      met = s.met;
      dial = s.dial;
      piece = s.piece;
      room = s.room;
      failing = s.failing.items;
      calls = s.calls;
      faults = s.faults;
    } };

    ghost invariant = { λ s. (0 < s.piece) × (s.place ≤ length s.bytes.items) };
}

impl MemoryLink {
    /// A link from which these bytes are read, as many of them in a call as there is room for, and
    /// which takes all that it is given. None of its calls fails.
    pub fn new(alloc: Global, bytes: Vec<u8>) -> MemoryLink
        ensures { result ≡ fresh_link bytes.items 0 }
    {
        MemoryLink {
            bytes,
            place: 0,
            taken: Vec::new(alloc),
            met: false,
            dial: 0,
            piece: usize::MAX,
            room: usize::MAX,
            failing: Vec::new(alloc),
            calls: 0,
            faults: 0,
        }
    }

    /// The same with at most `piece` bytes in a read and in a write.
    pub fn in_pieces(mut self, piece: usize) -> MemoryLink
        requires { 0 < piece }
        ensures { result ≡ record self { piece = piece; room = piece } }
    {
        self.piece = piece;
        self.room = piece;
        self
    }

    /// The same with at most `room` bytes taken in a write; with 0 it takes nothing.
    pub fn with_room(mut self, room: usize) -> MemoryLink
        ensures { result ≡ record self { room = room } }
    {
        self.room = room;
        self
    }

    /// The same with the numbers of the calls that are to fail, reads and writes counted together from 1.
    pub fn failing(mut self, calls: Vec<u64>) -> MemoryLink
        ensures { result ≡ record self { failing = calls.items } }
    {
        self.failing = calls;
        self
    }

    /// The bytes that it took.
    pub fn taken(&self) -> &[u8]
        ensures { result.now ≡ self.now.taken }
    {
        self.taken.as_slice()
    }

    /// How often it failed.
    pub fn faults(&self) -> u64
        ensures { result ≡ self.now.faults }
    {
        self.faults
    }

    /// The place of its dial among the dials of its dialer, counted from 0.
    pub fn place(&self) -> usize
        ensures { result ≡ self.now.dial }
    {
        self.dial
    }

    /// The link as it was before any call, at this place among the dials.
    pub fn renewed(mut self, place: usize) -> MemoryLink
        ensures { result ≡ renewed_link self place }
    {
        self.place = 0;
        self.taken.clear();
        self.met = false;
        self.dial = place;
        self.calls = 0;
        self.faults = 0;
        self
    }

    /// Another link in the same state.
    pub fn copied(&self, alloc: Global) -> Result<MemoryLink, NoMemory>
        ensures { IfOk result (λ l. l ≡ self.now) }
    {
        Ok(MemoryLink {
            bytes: Vec::from_slice(alloc, &self.bytes).map_err(|_| NoMemory)?,
            place: self.place,
            taken: Vec::from_slice(alloc, &self.taken).map_err(|_| NoMemory)?,
            met: self.met,
            dial: self.dial,
            piece: self.piece,
            room: self.room,
            failing: Vec::from_slice(alloc, &self.failing).map_err(|_| NoMemory)?,
            calls: self.calls,
            faults: self.faults,
        })
    }

    /// What it shows when it is hung up. It takes no memory.
    pub fn into_shown(self) -> Shown
        ensures { result ≡ record { written = self.taken; read = self.seen; met = self.met; faulted = nat_lt 0 self.faults } }
    {
        let faulted = self.faults > 0;
        let mut read = self.bytes;
        read.truncate(self.place);
        Shown {
            written: Seq::of(self.taken),
            read: Seq::of(read),
            met: self.met,
            faulted,
        }
    }
}

impl Link for MemoryLink {
    ghost use Rattle.std.specs.Prelude.{Some};

    ghost left = { λ s. Some s.left };

    ghost seen = { λ s. Some s.seen };

    ghost taken = { λ s. Some s.taken };

    ghost met = { λ s. s.met };

    ghost dial = { λ s. s.dial };

    ghost faults = { λ s. s.faults };

    fn read(&mut self, into: &mut [u8]) -> Result<usize, Failed>
        ensures bound { ReadsAtMost result into.new }
        ensures bytes { ReadConsumes (Some self.old.left) (Some self.new.left) result into.new }
        ensures grows { ReadGrows (Some self.old.seen) (Some self.new.seen) result into.new }
        ensures end { self.new.met ≡ (self.old.met || meets_end into.new result) }
        ensures other { Some self.new.taken ≡ Some self.old.taken }
        ensures place { self.new.dial ≡ self.old.dial }
        ensures cause { HasCause self.old.faults self.new.faults result }
        ensures fails { is_err result ≡ is_to_fail self.old.calls self.old.failing }
        ensures most { IfOk result (λ n. n ≡ min (min self.old.piece (length into.new)) (length self.old.left)) }
        ensures after { self.new ≡ after_link_read self.old into.new result }
    {
        self.calls = one_more(self.calls);
        if self.failing.contains(&self.calls) {
            self.faults = one_more(self.faults);
            return Err(Failed);
        }
        let count = copy_front(&self.bytes[self.place..], into, self.piece);
        self.place += count;
        self.met = self.met || (count == 0 && !into.is_empty());
        Ok(count)
    }

    fn write(&mut self, bytes: &[u8]) -> Result<usize, Failed>
        ensures bound { WritesAtMost result bytes.now }
        ensures bytes { WriteAppends (Some self.old.taken) (Some self.new.taken) result bytes.now }
        ensures other { Some self.new.left ≡ Some self.old.left }
        ensures seen { Some self.new.seen ≡ Some self.old.seen }
        ensures end { self.new.met ≡ self.old.met }
        ensures place { self.new.dial ≡ self.old.dial }
        ensures none { IfOk result (λ n. n ≡ 0 → 0 < length bytes.now → Rose self.old.faults self.new.faults) }
        ensures cause { HasCause self.old.faults self.new.faults result }
        ensures fails { IsTrue (is_to_fail self.old.calls self.old.failing) → IsErr result }
        ensures most { IfOk result (λ n. n ≡ min self.old.room (length bytes.now)) }
        ensures after { self.new ≡ after_link_write self.old bytes.now result }
    {
        self.calls = one_more(self.calls);
        if self.failing.contains(&self.calls) {
            self.faults = one_more(self.faults);
            return Err(Failed);
        }
        let count = self.room.min(bytes.len());
        if self.taken.extend_from_slice(&bytes[..count]).is_err() {
            self.faults = one_more(self.faults);
            return Err(Failed);
        }
        if count == 0 && !bytes.is_empty() {
            self.faults = one_more(self.faults);
        }
        Ok(count)
    }
}

/// A link in memory that gives and takes all that there is room for. It fails only for want of memory in
/// a write, which it counts as a fault.
#[derive(Drop)]
pub struct BytesLink {
    link: MemoryLink,
}

impl Model for BytesLink {
    ghost use Rattle.std.specs.Prelude.{◌≡◌, []};
    ghost use Rattle.outside.specs.Links.{LinkMemory};

    ghost Value = { LinkMemory };

    ghost view = { λ s. s.link };

    ghost invariant = { λ s. s.link.failing ≡ [] };
}

impl BytesLink {
    /// A link from which these bytes are read.
    pub fn new(alloc: Global, bytes: Vec<u8>) -> BytesLink
        ensures { result ≡ fresh_link bytes.items 0 }
    {
        BytesLink {
            link: MemoryLink::new(alloc, bytes),
        }
    }

    /// The link as it was before any call, at this place among the dials of its dialer.
    pub fn renewed(self, place: usize) -> BytesLink
        ensures { result ≡ renewed_link self place }
    {
        BytesLink {
            link: self.link.renewed(place),
        }
    }

    /// The bytes that it took.
    pub fn taken(&self) -> &[u8]
        ensures { result.now ≡ self.now.taken }
    {
        self.link.taken()
    }

    /// How often it failed.
    pub fn faults(&self) -> u64
        ensures { result ≡ self.now.faults }
    {
        self.link.faults()
    }

    /// The place of its dial among the dials of its dialer, counted from 0.
    pub fn place(&self) -> usize
        ensures { result ≡ self.now.dial }
    {
        self.link.place()
    }

    /// What it shows when it is hung up. It takes no memory.
    pub fn into_shown(self) -> Shown
        ensures { result ≡ record { written = self.taken; read = self.seen; met = self.met; faulted = nat_lt 0 self.faults } }
    {
        self.link.into_shown()
    }
}

impl Link for BytesLink {
    ghost use Rattle.std.specs.Prelude.{Some};

    ghost left = { λ s. Some s.left };

    ghost seen = { λ s. Some s.seen };

    ghost taken = { λ s. Some s.taken };

    ghost met = { λ s. s.met };

    ghost dial = { λ s. s.dial };

    ghost faults = { λ s. s.faults };

    fn read(&mut self, into: &mut [u8]) -> Result<usize, Failed>
        ensures bound { ReadsAtMost result into.new }
        ensures bytes { ReadConsumes (Some self.old.left) (Some self.new.left) result into.new }
        ensures grows { ReadGrows (Some self.old.seen) (Some self.new.seen) result into.new }
        ensures end { self.new.met ≡ (self.old.met || meets_end into.new result) }
        ensures other { Some self.new.taken ≡ Some self.old.taken }
        ensures place { self.new.dial ≡ self.old.dial }
        ensures cause { HasCause self.old.faults self.new.faults result }
        ensures never { IsOk result }
        ensures after { self.new ≡ after_link_read self.old into.new result }
    {
        self.link.read(into)
    }

    fn write(&mut self, bytes: &[u8]) -> Result<usize, Failed>
        ensures bound { WritesAtMost result bytes.now }
        ensures bytes { WriteAppends (Some self.old.taken) (Some self.new.taken) result bytes.now }
        ensures other { Some self.new.left ≡ Some self.old.left }
        ensures seen { Some self.new.seen ≡ Some self.old.seen }
        ensures end { self.new.met ≡ self.old.met }
        ensures place { self.new.dial ≡ self.old.dial }
        ensures none { IfOk result (λ n. n ≡ 0 → 0 < length bytes.now → Rose self.old.faults self.new.faults) }
        ensures cause { HasCause self.old.faults self.new.faults result }
        ensures after { self.new ≡ after_link_write self.old bytes.now result }
    {
        self.link.write(bytes)
    }
}
