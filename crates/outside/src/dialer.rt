//! Dialers, which give links to a host and port, and two of them in memory.
ghost use Rattle.std.specs.Prelude.{◌≡◌, ℕ, ◌+◌, ◌≤◌, [], Some, None, true, false, length, drop, IfOk, IsOk, IsErr, OnOk, OnErr, IfSome, IsSome, is_err, if◌then◌else◌};
ghost use Rattle.std.specs.Option.{option_map};
ghost use Rattle.outside.specs.Causes.{HasCause, faults_after};
ghost use Rattle.outside.specs.Links.{renewed_link, fresh_link};
ghost use Rattle.outside.specs.Dials.{dial_of, AddsDial, IsFresh, shown_of, HangsUp, TakesUp, next_link};

use super::dialed::Dialed;
use super::failed::{Failed, one_more};
use super::kept_dials::KeptDials;
use super::link::{BytesLink, Link, MemoryLink};
use job_values::NoMemory;
use std::alloc::Global;
use std::collections::VecDeque;
use std::marker::Model;

/// What links are dialed from.
pub trait Dialer: Drop {
    ghost use Rattle.std.specs.Prelude.{List, Option};
    ghost use Rattle.outside.specs.declared.dialed.Dialed.{Dialed};

    /// The links that it gives.
    type Link: Link;

    // The dials in order, where they are told.
    ghost dials: { Self → Option (List Dialed) } = { λ _. None };

    // How often it failed, with the faults of the links that were hung up. The count does not fall, and
    // stays at its greatest value.
    ghost faults: { Self → ℕ };

    /// Dials a host and a port. Each dial is one dial more, whatever it answers.
    fn dial(&mut self, host: &str, port: u16) -> Result<Self::Link, Failed>
        ensures dialed { AddsDial (dials self.old) (dials self.new) (dial_of host.now port (is_err result)) }
        ensures fresh { IfOk result (λ l. IsFresh (dials self.old) (Self.Link.dial l) (Self.Link.seen l) (Self.Link.taken l) (Self.Link.met l) (Self.Link.faults l)) }
        ensures cause { HasCause (faults self.old) (faults self.new) result };

    /// Hangs up a link that it gave. The dial of the link then shows what the link told.
    fn hang_up(&mut self, link: Self::Link)
        ensures shown { HangsUp (dials self.old) (dials self.new) (Self.Link.dial link) (shown_of (Self.Link.seen link) (Self.Link.taken link) (Self.Link.met link) (Self.Link.faults link)) }
        ensures count { TakesUp (faults self.old) (Self.Link.faults link) (faults self.new) };

    /// One more of the same kind for another thread, with dials and a count of its own.
    fn another(&mut self) -> Result<Self, NoMemory>
        ensures anew { IfOk result (λ d. IfSome (dials self.old) (λ _. dials d ≡ Some [])) }
        ensures none { IfOk result (λ d. faults d ≡ 0) }
        ensures dials { dials self.new ≡ dials self.old }
        ensures count { faults self.new ≡ faults self.old };
}

/// A dialer in memory, with the links that it gives and the dials that it refuses, in order. Behind the
/// last it refuses every dial. Want of memory in a dial is counted as a fault, and the dials are untold
/// from then on.
#[derive(Drop)]
pub struct MemoryDialer {
    script: VecDeque<Option<MemoryLink>>,
    kept: KeptDials,
    faults: u64,
}

impl Model for MemoryDialer {
    ghost use Rattle.outside.specs.Dials.{ScriptedDials};

    ghost Value = { ScriptedDials };

    ghost view = { λ s. record { script = s.script.items; dials = s.kept; faults = s.faults } };
}

/// Another of the same link or refusal.
fn copied_item(alloc: Global, item: &Option<MemoryLink>) -> Result<Option<MemoryLink>, NoMemory>
    ensures { IfOk result (λ i. i ≡ item.now) }
{
    match item {
        Some(link) => Ok(Some(link.copied(alloc)?)),
        None => Ok(None),
    }
}

/// Another list of the same links and refusals.
fn copied_script(
    alloc: Global,
    script: &VecDeque<Option<MemoryLink>>,
) -> Result<VecDeque<Option<MemoryLink>>, NoMemory>
    ensures { IfOk result (λ s. s.items ≡ script.now.items) }
{
    let mut copy = VecDeque::new(alloc);
    for i in 0..script.len() {
        let item = copied_item(alloc, &script[i])?;
        copy.push_back(item).map_err(|_| NoMemory)?;
    }
    Ok(copy)
}

impl MemoryDialer {
    /// A dialer with these links and refusals, `None` for a refusal. The calls of a link that are to fail
    /// are those of its own.
    pub fn new(alloc: Global, script: VecDeque<Option<MemoryLink>>) -> MemoryDialer
        ensures { result ≡ record { script = script.items; dials = Some []; faults = 0 } }
    {
        MemoryDialer {
            script,
            kept: KeptDials::new(alloc),
            faults: 0,
        }
    }

    /// The dials so far. None where memory ran out in one of them.
    pub fn dials(&self) -> Option<&[Dialed]>
        ensures { option_map (λ ds. ds.now) result ≡ self.now.dials }
    {
        self.kept.told()
    }

    /// How often it failed, with the faults of the links that were hung up.
    pub fn faults(&self) -> u64
        ensures { result ≡ self.now.faults }
    {
        self.faults
    }
}

impl Dialer for MemoryDialer {
    type Link = MemoryLink;

    ghost dials = { λ s. s.dials };

    ghost faults = { λ s. s.faults };

    fn dial(&mut self, host: &str, port: u16) -> Result<MemoryLink, Failed>
        ensures dialed { AddsDial self.old.dials self.new.dials (dial_of host.now port (is_err result)) }
        ensures fresh { IfOk result (λ l. IsFresh self.old.dials l.dial (Some l.seen) (Some l.taken) l.met l.faults) }
        ensures cause { HasCause self.old.faults self.new.faults result }
        ensures link { IfOk result (λ l. IfSome (next_link self.old.script) (λ m. l ≡ renewed_link m l.dial)) }
        ensures refused { next_link self.old.script ≡ None → IsErr result }
        ensures given { IsSome (next_link self.old.script) → IsSome self.new.dials → IsOk result }
        ensures script { self.new.script ≡ drop 1 self.old.script }
        ensures count { self.new.faults ≡ (if is_err result then faults_after self.old.faults else self.old.faults) }
    {
        let place = self.kept.next_place();
        if let Some(Some(link)) = self.script.pop_front() {
            if self.kept.add(host, port, false).is_ok() {
                return Ok(link.renewed(place));
            }
        } else {
            let _ = self.kept.add(host, port, true);
        }
        self.faults = one_more(self.faults);
        Err(Failed)
    }

    fn hang_up(&mut self, link: MemoryLink)
        ensures shown { HangsUp self.old.dials self.new.dials link.dial (shown_of (Some link.seen) (Some link.taken) link.met link.faults) }
        ensures count { TakesUp self.old.faults link.faults self.new.faults }
        ensures most { self.new.faults ≤ self.old.faults + link.faults }
        ensures script { self.new.script ≡ self.old.script }
    {
        self.faults = self.faults.saturating_add(link.faults());
        let place = link.place();
        self.kept.show(place, link.into_shown());
    }

    fn another(&mut self) -> Result<MemoryDialer, NoMemory>
        ensures anew { IfOk result (λ d. IfSome self.old.dials (λ _. d.dials ≡ Some [])) }
        ensures none { IfOk result (λ d. d.faults ≡ 0) }
        ensures dials { self.new.dials ≡ self.old.dials }
        ensures count { self.new.faults ≡ self.old.faults }
        ensures script { IfOk result (λ d. d.script ≡ self.old.script) }
        ensures same { self.new ≡ self.old }
    {
        let script = copied_script(self.kept.alloc(), &self.script)?;
        Ok(MemoryDialer::new(self.kept.alloc(), script))
    }
}

/// A dialer in memory that refuses no dial: from each link that it gives the same bytes are read. Want of
/// memory in a dial is counted as a fault, and the dials are untold from then on.
#[derive(Drop)]
pub struct BytesDialer {
    answer: Vec<u8>,
    kept: KeptDials,
    faults: u64,
}

impl Model for BytesDialer {
    ghost use Rattle.outside.specs.Dials.{AnsweredDials};

    ghost Value = { AnsweredDials };

    ghost view = { λ s. record { answer = s.answer.items; dials = s.kept; faults = s.faults } };
}

impl BytesDialer {
    /// A dialer whose links give these bytes.
    pub fn new(alloc: Global, answer: Vec<u8>) -> BytesDialer
        ensures { result ≡ record { answer = answer.items; dials = Some []; faults = 0 } }
    {
        BytesDialer {
            answer,
            kept: KeptDials::new(alloc),
            faults: 0,
        }
    }

    /// The dials so far. None where memory ran out in one of them.
    pub fn dials(&self) -> Option<&[Dialed]>
        ensures { option_map (λ ds. ds.now) result ≡ self.now.dials }
    {
        self.kept.told()
    }

    /// A link with the answer, after the dial was kept.
    fn answered(&mut self, host: &str, port: u16) -> Result<BytesLink, NoMemory>
        ensures ok { OnOk result (AddsDial self.old.dials self.new.dials (dial_of host.now port false)) }
        ensures err { OnErr result (AddsDial self.old.dials self.new.dials (dial_of host.now port true)) }
        ensures link { IfOk result (λ l. l ≡ fresh_link self.old.answer l.dial) }
        ensures place { IfOk result (λ l. IfSome self.old.dials (λ ds. l.dial ≡ length ds)) }
        ensures answer { self.new.answer ≡ self.old.answer }
        ensures faults { self.new.faults ≡ self.old.faults }
    {
        let place = self.kept.next_place();
        match Vec::from_slice(self.kept.alloc(), &self.answer) {
            Ok(answer) => {
                self.kept.add(host, port, false)?;
                Ok(BytesLink::new(self.kept.alloc(), answer).renewed(place))
            }
            Err(_) => {
                let _ = self.kept.add(host, port, true);
                Err(NoMemory)
            }
        }
    }
}

impl Dialer for BytesDialer {
    type Link = BytesLink;

    ghost dials = { λ s. s.dials };

    ghost faults = { λ s. s.faults };

    fn dial(&mut self, host: &str, port: u16) -> Result<BytesLink, Failed>
        ensures dialed { AddsDial self.old.dials self.new.dials (dial_of host.now port (is_err result)) }
        ensures fresh { IfOk result (λ l. IsFresh self.old.dials l.dial (Some l.seen) (Some l.taken) l.met l.faults) }
        ensures cause { HasCause self.old.faults self.new.faults result }
        ensures link { IfOk result (λ l. l ≡ fresh_link self.old.answer l.dial) }
        ensures answer { self.new.answer ≡ self.old.answer }
        ensures count { self.new.faults ≡ (if is_err result then faults_after self.old.faults else self.old.faults) }
    {
        match self.answered(host, port) {
            Ok(link) => Ok(link),
            Err(NoMemory) => {
                self.faults = one_more(self.faults);
                Err(Failed)
            }
        }
    }

    fn hang_up(&mut self, link: BytesLink)
        ensures shown { HangsUp self.old.dials self.new.dials link.dial (shown_of (Some link.seen) (Some link.taken) link.met link.faults) }
        ensures count { TakesUp self.old.faults link.faults self.new.faults }
        ensures most { self.new.faults ≤ self.old.faults + link.faults }
        ensures answer { self.new.answer ≡ self.old.answer }
    {
        self.faults = self.faults.saturating_add(link.faults());
        let place = link.place();
        self.kept.show(place, link.into_shown());
    }

    fn another(&mut self) -> Result<BytesDialer, NoMemory>
        ensures anew { IfOk result (λ d. IfSome self.old.dials (λ _. d.dials ≡ Some [])) }
        ensures none { IfOk result (λ d. d.faults ≡ 0) }
        ensures dials { self.new.dials ≡ self.old.dials }
        ensures count { self.new.faults ≡ self.old.faults }
        ensures answer { IfOk result (λ d. d.answer ≡ self.old.answer) }
        ensures same { self.new ≡ self.old }
    {
        let answer = Vec::from_slice(self.kept.alloc(), &self.answer).map_err(|_| NoMemory)?;
        Ok(BytesDialer::new(self.kept.alloc(), answer))
    }
}
