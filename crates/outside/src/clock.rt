//! The time, and a clock in memory.
ghost use Rattle.std.specs.Prelude.{◌≡◌, [], ◌∷◌, None, Some, IfOk, IfSome};
ghost use Rattle.std.specs.Io.KnownBytes.{Appends};
ghost use Rattle.outside.specs.Clocks.{moved_on};

use job_values::{Moment, NoMemory};
use std::alloc::Global;
use std::collections::VecDeque;
use std::marker::Model;

/// Tells the time, and waits.
pub trait Clock: Drop {
    ghost use Rattle.std.specs.Prelude.{List, ℕ, Option, None};

    // The readings so far, where they are told.
    ghost readings: { Self → Option (List ℕ) } = { λ _. None };

    /// The moment now. It never fails.
    fn now(&mut self) -> Moment
        ensures { Appends (readings self.old) (readings self.new) (result ∷ []) };

    /// Waits for about so many milliseconds. It is no reading.
    fn pause(&mut self, ms: u32)
        ensures { readings self.new ≡ readings self.old };

    /// One more of the same kind for another thread, with readings of its own.
    fn another(&mut self) -> Result<Self, NoMemory>
        ensures anew { IfOk result (λ c. IfSome (readings self.old) (λ _. readings c ≡ Some [])) }
        ensures readings { readings self.new ≡ readings self.old };
}

/// A clock in memory. It shows the moments of a list, the next one after each reading, and stands at the
/// last. It doesn't wait, and doesn't tell its readings.
#[derive(Drop)]
pub struct MemoryClock {
    alloc: Global,
    shown: Moment,
    coming: VecDeque<Moment>,
}

impl Model for MemoryClock {
    ghost use Rattle.outside.specs.Clocks.{ClockView};

    ghost Value = { ClockView };

    ghost view = { λ c. record { shown = c.shown; coming = c.coming.items } };
}

/// Another list of the same moments.
fn copied_moments(alloc: Global, moments: &VecDeque<Moment>) -> Result<VecDeque<Moment>, NoMemory>
    ensures { IfOk result (λ c. c.items ≡ moments.now.items) }
{
    let mut copy = VecDeque::new(alloc);
    for i in 0..moments.len() {
        copy.push_back(moments[i])?;
    }
    Ok(copy)
}

impl MemoryClock {
    /// A clock that stands at a moment. It takes no memory.
    pub fn new(alloc: Global, at: Moment) -> MemoryClock
        ensures { result ≡ record { shown = at; coming = [] } }
    {
        MemoryClock {
            alloc,
            shown: at,
            coming: VecDeque::new(alloc),
        }
    }

    /// The same with these moments behind the one that it shows.
    pub fn before(mut self, moments: VecDeque<Moment>) -> MemoryClock
        ensures { result ≡ record self { coming = moments.items } }
    {
        self.coming = moments;
        self
    }
}

impl Clock for MemoryClock {
    fn now(&mut self) -> Moment
        ensures shown { result ≡ self.old.shown }
        ensures after { self.new ≡ moved_on self.old }
    {
        let at = self.shown;
        if let Some(next) = self.coming.pop_front() {
            self.shown = next;
        }
        at
    }

    fn pause(&mut self, _ms: u32)
        ensures { self.new ≡ self.old }
    {}

    fn another(&mut self) -> Result<MemoryClock, NoMemory>
        ensures same { IfOk result (λ c. c ≡ self.old) }
        ensures left { self.new ≡ self.old }
    {
        Ok(MemoryClock {
            alloc: self.alloc,
            shown: self.shown,
            coming: copied_moments(self.alloc, &self.coming)?,
        })
    }
}
