//! Listeners in memory.
ghost use Rattle.std.specs.Prelude.{◌≡◌, [], false, is_err, IfOk, IsTrue, IsOk};
ghost use Rattle.outside.specs.Causes.{HasCause};
ghost use Rattle.outside.specs.Streams.{is_to_fail};
ghost use Rattle.std.specs.Prelude.{Some};
ghost use Rattle.std.specs.Option.{option_map};
ghost use Rattle.program_ports.specs.Listeners.{Waits, Accepts, after_call, first_of, next_in, seen_memory};

use crate::listener::{Accept, Listener};
use outside::{Failed, Link};
use std::alloc::Global;
use std::collections::VecDeque;
use std::marker::Model;

/// A listener in memory, with the links that it gives in order, None where it is idle. Behind the last it
/// has ended. The calls of some numbers are to fail.
#[derive(Drop)]
pub struct MemoryListener<L> {
    coming: VecDeque<Option<L>>,
    met: bool,
    failing: Vec<u64>,
    calls: u64,
    faults: u64,
}

impl<L> Model for MemoryListener<L> {
    ghost use Rattle.program_ports.specs.Listeners.{ListenerMemory};

    ghost Value = { ListenerMemory L };

    ghost view = { λ s. record {
      coming = s.coming.items;
      met = s.met;
      failing = s.failing.items;
      calls = s.calls;
      faults = s.faults;
    } };
}

impl<L> MemoryListener<L> {
    /// A listener that gives these links. None of its calls fails.
    pub fn new(alloc: Global, coming: VecDeque<Option<L>>) -> MemoryListener<L>
        ensures { result ≡ record { coming = coming.items; met = false; failing = []; calls = 0; faults = 0 } }
    {
        MemoryListener {
            coming,
            met: false,
            failing: Vec::new(alloc),
            calls: 0,
            faults: 0,
        }
    }

    /// How often it failed.
    pub fn faults(&self) -> u64
        ensures { result ≡ self.now.faults }
    {
        self.faults
    }
}

impl<L: Drop> MemoryListener<L> {
    /// The same with the numbers of the calls that are to fail, counted from 1.
    pub fn failing(mut self, calls: Vec<u64>) -> MemoryListener<L>
        ensures { result ≡ record self { failing = calls.items } }
    {
        self.failing = calls;
        self
    }

    /// Counts a call, which fails where it is to.
    fn called(&mut self) -> Result<(), Failed>
        ensures fails { is_err result ≡ is_to_fail self.old.calls self.old.failing }
        ensures after { self.new ≡ after_call self.old result }
        ensures cause { HasCause self.old.faults self.new.faults result }
    {
        self.calls = self.calls.saturating_add(1);
        if self.failing.contains(&self.calls) {
            self.faults = self.faults.saturating_add(1);
            return Err(Failed);
        }
        Ok(())
    }
}

impl<L: Link> Listener for MemoryListener<L> {
    type Link = L;

    ghost use Rattle.program_ports.specs.Listeners.{seen_memory};

    ghost seen = { seen_memory };

    fn attach(&mut self, _port: u16) -> Result<(), Failed>
        ensures waits { Waits (seen_memory self.old) (seen_memory self.new) }
        ensures cause { HasCause self.old.faults self.new.faults result }
        ensures fails { is_err result ≡ is_to_fail self.old.calls self.old.failing }
        ensures after { self.new ≡ after_call self.old result }
    {
        self.called()
    }

    fn accept(&mut self) -> Result<Accept<L>, Failed>
        ensures accepts { Accepts (seen_memory self.old) (seen_memory self.new) result }
        ensures next { IfOk result (λ a. a ≡ next_in self.old.coming) }
        ensures cause { HasCause self.old.faults self.new.faults result }
        ensures fails { is_err result ≡ is_to_fail self.old.calls self.old.failing }
    {
        self.called()?;
        match self.coming.pop_front() {
            Some(Some(link)) => Ok(Accept::Came(link)),
            Some(None) => Ok(Accept::Idle),
            None => {
                self.met = true;
                Ok(Accept::Ended)
            }
        }
    }
}

/// A listener in memory that never fails and is never idle.
#[derive(Drop)]
pub struct LinksListener<L> {
    links: VecDeque<L>,
    met: bool,
}

impl<L> Model for LinksListener<L> {
    ghost use Rattle.std.specs.Prelude.{List, Bool};
    ghost use Rattle.program_ports.specs.Listeners.{ListenerView};
    ghost use Rattle.std.specs.Prelude.{Some};

    ghost Value = { ListenerView L };

    ghost view = { λ s. record { left = Some s.links.items; met = s.met; faults = 0 } };
}

impl<L> LinksListener<L> {
    ghost use Rattle.std.specs.Prelude.{Some};

    /// A listener that gives these links, and has ended behind the last.
    pub fn new(links: VecDeque<L>) -> LinksListener<L>
        ensures { result ≡ record { left = Some links.items; met = false; faults = 0 } }
    {
        LinksListener { links, met: false }
    }
}

impl<L: Link> Listener for LinksListener<L> {
    type Link = L;

    ghost seen = { λ s. s };

    fn attach(&mut self, _port: u16) -> Result<(), Failed>
        ensures waits { Waits self.old self.new }
        ensures cause { HasCause self.old.faults self.new.faults result }
        ensures never { IsOk result }
    {
        Ok(())
    }

    fn accept(&mut self) -> Result<Accept<L>, Failed>
        ensures accepts { Accepts self.old self.new result }
        ensures first { IfOk result (λ a. option_map first_of self.old.left ≡ Some a) }
        ensures cause { HasCause self.old.faults self.new.faults result }
        ensures never { IsOk result }
    {
        match self.links.pop_front() {
            Some(link) => Ok(Accept::Came(link)),
            None => {
                self.met = true;
                Ok(Accept::Ended)
            }
        }
    }
}
