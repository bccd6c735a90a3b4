//! The dials that a dialer in memory keeps.
ghost use Rattle.std.specs.Prelude.{◌≡◌, [], ◌∷◌, ◌++◌, Some, None, length, OnOk, OnErr, IfSome};
ghost use Rattle.std.specs.Option.{option_map};
ghost use Rattle.outside.specs.Dials.{dial_of, AddsDial, HangsUp, hung_up};

use super::dialed::{Dialed, Shown};
use job_values::{NoMemory, Text};
use std::alloc::Global;
use std::marker::Model;

/// The dials so far, which contracts see as an `Option`: None from the dial on for which memory ran out.
#[derive(Drop)]
pub(crate) struct KeptDials {
    alloc: Global,
    dials: Vec<Dialed>,
    lost: bool,
}

impl Model for KeptDials {
    ghost use Rattle.std.specs.Prelude.{List, Option, if◌then◌else◌, None, Some};
    ghost use Rattle.outside.specs.declared.dialed.Dialed.{Dialed};

    ghost Value = { Option (List Dialed) };

    ghost view = { λ s. if s.lost then None else Some s.dials.items };
}

impl KeptDials {
    /// No dial.
    pub(crate) fn new(alloc: Global) -> KeptDials
        ensures { result ≡ Some [] }
    {
        KeptDials {
            alloc,
            dials: Vec::new(alloc),
            lost: false,
        }
    }

    /// The allocator.
    pub(crate) fn alloc(&self) -> Global {
        self.alloc
    }

    /// The place of the next dial.
    pub(crate) fn next_place(&self) -> usize
        ensures { IfSome self.now (λ ds. result ≡ length ds) }
    {
        self.dials.len()
    }

    /// The dials, where they are told.
    pub(crate) fn told(&self) -> Option<&[Dialed]>
        ensures { option_map (λ ds. ds.now) result ≡ self.now }
    {
        if self.lost {
            None
        } else {
            Some(self.dials.as_slice())
        }
    }

    /// Puts a dial behind the others.
    pub(crate) fn add(&mut self, host: &str, port: u16, failed: bool) -> Result<(), NoMemory>
        ensures ok { OnOk result (AddsDial self.old self.new (dial_of host.now port failed)) }
        ensures err { OnErr result (self.new ≡ None) }
    {
        let kept = add_dial(self.alloc, &mut self.dials, host, port, failed);
        if kept.is_err() {
            self.lost = true;
        }
        kept
    }

    /// Lets the dial at a place show what its link told.
    pub(crate) fn show(&mut self, place: usize, shown: Shown)
        ensures { HangsUp self.old self.new place (Some shown) }
    {
        show_dial(&mut self.dials, place, shown);
    }
}

/// Puts a dial behind the others. An `Err` changes nothing.
fn add_dial(
    alloc: Global,
    dials: &mut Vec<Dialed>,
    host: &str,
    port: u16,
    failed: bool,
) -> Result<(), NoMemory>
    ensures ok { OnOk result (dials.new.items ≡ dials.old.items ++ dial_of host.now port failed ∷ []) }
    ensures err { OnErr result (dials.new.items ≡ dials.old.items) }
{
    let host = Text::copied(alloc, host)?;
    let dial = Dialed {
        host,
        port,
        failed,
        shown: None,
    };
    dials.push(dial).map_err(|_| NoMemory)?;
    Ok(())
}

/// Lets the dial at a place show what its link told.
fn show_dial(dials: &mut Vec<Dialed>, place: usize, shown: Shown)
    ensures { dials.new.items ≡ hung_up dials.old.items place (Some shown) }
{
    if place < dials.len() {
        dials[place].shown = Some(shown);
    }
}
