//! Random words, of a generator that the system seeds.

use job_values::NoMemory;
use outside::Failed;
use program_ports::Words;
use rand::rngs::StdRng;
use rand::{Rng, SeedableRng, make_rng};
use std::random::RandomSource;

/// The words of a generator.
#[derive(Drop)]
pub struct RandomWords {
    source: StdRng,
}

impl RandomWords {
    /// Words of a generator that the system's random bytes seed.
    pub fn new<R: RandomSource>(system: &R) -> Result<RandomWords, Failed> {
        match make_rng(system) {
            Ok(source) => Ok(RandomWords { source }),
            Err(_) => Err(Failed),
        }
    }
}

impl Words for RandomWords {
    fn word(&mut self) -> u64 {
        self.source.next_u64()
    }

    fn another(&mut self) -> Result<RandomWords, NoMemory> {
        Ok(RandomWords {
            source: StdRng::seed_from_u64(self.source.next_u64()),
        })
    }
}
