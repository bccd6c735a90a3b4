//! An ordered set of keys, kept as sorted blocks of at most a few hundred keys: how a key is found,
//! put and dropped, and how the keys are read one after another. Each look-up is two binary searches.
#![tactic(auto)]

mod blocks;
pub mod key;
mod key_block;
pub mod laws;
pub mod sorted_blocks;

pub use key::Key;
pub use sorted_blocks::SortedBlocks;
