//! The clock of the system.
ghost use Rattle.std.specs.Prelude.{◌≡◌};

use job_values::{Moment, NoMemory};
use outside::Clock;
use std::thread;
use std::time::{Clock as TimeSource, Duration};

/// The time of the system. Where it can't be read, or is no moment, the last reading stands.
#[derive(Drop)]
pub struct SystemClock<R> {
    time: R,
    last: Moment,
}

impl<R> SystemClock<R> {
    /// The clock of this system. It takes no memory.
    pub fn new(time: R) -> SystemClock<R> {
        SystemClock {
            time,
            last: first_moment(),
        }
    }
}

/// The moment 0.
fn first_moment() -> Moment {
    match Moment::new(0) {
        Some(at) => at,
        None => unreachable!(),
    }
}

/// The moment of the system, if it is one.
fn moment_of<R: TimeSource>(time: &R) -> Option<Moment> {
    match time.since_1970() {
        Ok(since) => Moment::new(u64::try_from(since.as_millis()).unwrap_or(u64::MAX)),
        Err(_) => None,
    }
}

impl<R: TimeSource + Copy + Drop> Clock for SystemClock<R> {
    fn now(&mut self) -> Moment {
        if let Some(at) = moment_of(&self.time) {
            self.last = at;
        }
        self.last
    }

    fn pause(&mut self, ms: u32) {
        thread::sleep(&self.time, Duration::from_millis(u64::from(ms)));
    }

    fn another(&mut self) -> Result<SystemClock<R>, NoMemory> {
        Ok(SystemClock {
            time: self.time,
            last: self.last,
        })
    }
}
