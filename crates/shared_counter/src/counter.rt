//! The counter, one event after another.
ghost use Rattle.std.specs.Prelude.{◌≡◌, false};

use turn_lock::Machine;

/// The event: add this much.
#[derive(Clone, Copy, PartialEq, Eq)]
pub struct Add {
    pub by: u64,
}

/// An act with its reply.
pub type Entry = (Add, u64);

/// The value would be above the limit.
#[derive(Clone, Copy, Debug, PartialEq, Eq)]
pub struct OverLimit;

/// A value that rises up to a limit.
#[derive(Clone, Copy, Debug, PartialEq, Eq)]
pub struct Counter {
    pub value: u64,
    pub limit: u64,
}

impl Machine for Counter {
    ghost use Rattle.shared_counter.specs.Counting.{IsLegal, Stands, Refuses};

    type Event = Add;

    type Reply = u64;

    type Refused = OverLimit;

    type Opening = Counter;

    ghost opening = { λ c. c };

    ghost stands = { Stands };

    ghost legal = { IsLegal };

    ghost refuses = { Refuses };

    ghost is_want = { λ _. false };

    fn step(&mut self, event: &Add) -> Result<u64, OverLimit> {
        if self.value > self.limit || event.by > self.limit - self.value {
            return Err(OverLimit);
        }
        self.value += event.by;
        Ok(self.value)
    }

    fn is_memory(_refused: &OverLimit) -> bool {
        false
    }

    ghost stands_legally = { λ o log m h. h.2 };
}
