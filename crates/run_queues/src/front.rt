//! The first run of a queue, as the index of the queues keeps it.
ghost use Rattle.std.specs.Prelude.{◌≡◌};
ghost use Rattle.std.specs.Ordering.{nat_cmp};

use super::ranked::Ranked;
use job_values::JobId;
use std::cmp::Ordering;

/// The first run of a job that waits.
#[derive(Clone, Copy)]
pub struct Front {
    /// Its place in order of acceptance.
    pub number: u64,
    pub job: JobId,
}

impl Ranked for Front {
    ghost rank_of = { λ f. f.number };

    fn compare(&self, other: &Front) -> Ordering {
        self.number.cmp(&other.number)
    }
}
