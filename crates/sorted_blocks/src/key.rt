//! Keys: a time and an id, in order of the times and then of the ids.
ghost use Rattle.std.specs.Prelude.{◌≡◌};
ghost use Rattle.sorted_blocks.specs.Keys.{key_cmp};

use std::cmp::Ordering;

/// A time in milliseconds and an id. A key that is an id alone has the time 0.
#[derive(Clone, Copy, PartialEq, Eq)]
pub struct Key {
    pub time: u64,
    pub id: u64,
}

impl Key {
    /// How this key compares with another: by the times, then by the ids.
    pub fn compare(&self, other: &Key) -> Ordering
        ensures { result ≡ key_cmp self.now other.now }
    {
        match self.time.cmp(&other.time) {
            Ordering::Less => Ordering::Less,
            Ordering::Equal => self.id.cmp(&other.id),
            Ordering::Greater => Ordering::Greater,
        }
    }
}
