//! What programs stand on besides the links, clocks and dialers of the outside: listeners, random words, and
//! works that run in threads. Each tells its calls, with a form in memory.
#![tactic(auto)]

mod listener;
mod memory_listener;
mod spawning;
mod threads;
mod words;
mod work;

pub use listener::{Accept, Listener};
pub use memory_listener::{LinksListener, MemoryListener};
pub use spawning::{Place, Spawned, Spawning};
pub use threads::{Ended, OfWork, RunningThread};
pub use words::{MemoryWords, Words};
pub use work::Work;
