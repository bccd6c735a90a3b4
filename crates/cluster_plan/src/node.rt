//! What a cluster keeps of each admin.

use route_strategies::Routes;
use time_ring::TimeRing;
use trigger_pool::Pools;

/// What is kept of an admin: whether it runs, the tickets that wait in its ring, the logs that wait
/// in its pools with the counts of its sendings, and the addresses that it picked.
#[derive(Drop)]
pub struct Node {
    pub running: bool,
    pub ring: TimeRing,
    pub pools: Pools,
    pub routes: Routes,
}
