//! Work on the blocks of a set: a key is put into its block or dropped from it, a full block is split
//! over a spare one, and a block without keys becomes a spare one.
ghost use Rattle.std.specs.Prelude.{◌≡◌, ◌+◌, ◌<◌, ◌≤◌, [], length, All, slice_get, slice_index_or, vec_capacity, OnOk};
ghost use Rattle.sorted_blocks.specs.Keys.{has_key, key_above, with_key, without_key, Rises};
ghost use Rattle.sorted_blocks.specs.Blocks.{joined, IsFilled, IsBlockOf, replaced, halves, parted, unless_empty, room_of, AreBlocks};

use super::key::Key;
use super::key_block::{BLOCK, KeyBlock};
use job_values::NoMemory;
use std::alloc::Global;

/// The block to which a key belongs: the first whose keys are not all below it, or the last.
fn block_of(blocks: &[KeyBlock], key: Key) -> usize
    requires some { 0 < length blocks.now }
    requires filled { All IsFilled blocks.now }
    requires rising { Rises (joined blocks.now) }
    ensures { IsBlockOf key blocks.now result }
{
    let at = blocks.partition_point(|block| block.is_below(key));
    if at < blocks.len() { at } else { at - 1 }
}

/// The first key of the blocks.
pub(crate) fn first_key(blocks: &[KeyBlock]) -> Option<Key>
    requires { All IsFilled blocks.now }
    ensures { result ≡ slice_get (joined blocks.now) 0 }
{
    match blocks.first() {
        Some(block) => block.first(),
        None => None,
    }
}

/// The key at a place, counted from 0: the blocks before it are passed one after another.
pub(crate) fn key_at(blocks: &[KeyBlock], place: usize) -> Option<Key>
    ensures { result ≡ slice_get (joined blocks.now) place }
{
    let mut left = place;
    for block in blocks {
        if left < block.len() {
            return block.get(left);
        }
        left -= block.len();
    }
    None
}

/// Whether one of the blocks has a key.
pub(crate) fn contains_key(blocks: &[KeyBlock], key: Key) -> bool
    requires filled { All IsFilled blocks.now }
    requires rising { Rises (joined blocks.now) }
    ensures { result ≡ has_key key (joined blocks.now) }
{
    if blocks.is_empty() {
        return false;
    }
    let block = &blocks[block_of(blocks, key)];
    block.contains(key)
}

/// The first key of the blocks above another.
pub(crate) fn next_key(blocks: &[KeyBlock], key: Key) -> Option<Key>
    requires filled { All IsFilled blocks.now }
    requires rising { Rises (joined blocks.now) }
    ensures { result ≡ key_above key (joined blocks.now) }
{
    if blocks.is_empty() {
        return None;
    }
    let at = block_of(blocks, key);
    let block = &blocks[at];
    match block.next_after(key) {
        Some(other) => Some(other),
        None => first_key(&blocks[at + 1..]),
    }
}

/// Takes one of the spare blocks.
fn take_spare(spare: &mut Vec<KeyBlock>) -> KeyBlock
    requires some { 0 < length spare.old.items }
    requires empty { All (λ block. block ≡ []) spare.old.items }
    ensures block { result ≡ [] }
    ensures empty { All (λ block. block ≡ []) spare.new.items }
    ensures count { length spare.new.items + 1 ≡ length spare.old.items }
    ensures capacity { vec_capacity spare.new ≡ vec_capacity spare.old }
{
    spare.pop().unwrap()
}

/// Moves the second half of a full block to a spare one, which goes behind it.
fn split_block(blocks: &mut Vec<KeyBlock>, spare: &mut Vec<KeyBlock>, at: usize)
    requires within { at < length blocks.old.items }
    requires full { length (slice_index_or blocks.old.items at []) ≡ BLOCK }
    requires some { 0 < length spare.old.items }
    requires empty { All (λ block. block ≡ []) spare.old.items }
    requires place { length blocks.old.items < vec_capacity blocks.old }
    ensures blocks { blocks.new.items ≡ replaced at (halves (slice_index_or blocks.old.items at [])) blocks.old.items }
    ensures empty { All (λ block. block ≡ []) spare.new.items }
    ensures count { length spare.new.items + 1 ≡ length spare.old.items }
    ensures blocks_capacity { vec_capacity blocks.old ≤ vec_capacity blocks.new }
    ensures spare_capacity { vec_capacity spare.new ≡ vec_capacity spare.old }
{
    let mut back = take_spare(spare);
    let front = &mut blocks[at];
    front.move_half(&mut back);
    blocks.insert(at + 1, back).unwrap();
}

/// Puts a key into the block at a place, and splits that block where it is full then.
fn put_within(blocks: &mut Vec<KeyBlock>, spare: &mut Vec<KeyBlock>, at: usize, key: Key)
    requires within { at < length blocks.old.items }
    requires place { length (slice_index_or blocks.old.items at []) < BLOCK }
    requires some { BLOCK ≤ length (slice_index_or blocks.old.items at []) + 1 → 0 < length spare.old.items }
    requires empty { All (λ block. block ≡ []) spare.old.items }
    requires fit { length blocks.old.items + length spare.old.items ≤ vec_capacity blocks.old }
    ensures blocks { blocks.new.items ≡ replaced at (parted (with_key key (slice_index_or blocks.old.items at []))) blocks.old.items }
    ensures empty { All (λ block. block ≡ []) spare.new.items }
    ensures count { length blocks.new.items + length spare.new.items ≡ length blocks.old.items + length spare.old.items }
    ensures blocks_capacity { vec_capacity blocks.old ≤ vec_capacity blocks.new }
    ensures spare_capacity { vec_capacity spare.new ≡ vec_capacity spare.old }
{
    let block = &mut blocks[at];
    block.put(key);
    if block.len() >= BLOCK {
        split_block(blocks, spare, at);
    }
}

/// Drops a key from the block at a place, which becomes a spare one where it has no key then.
fn drop_within(blocks: &mut Vec<KeyBlock>, spare: &mut Vec<KeyBlock>, at: usize, key: Key)
    requires within { at < length blocks.old.items }
    requires empty { All (λ block. block ≡ []) spare.old.items }
    requires fit { length blocks.old.items + length spare.old.items ≤ vec_capacity spare.old }
    ensures blocks { blocks.new.items ≡ replaced at (unless_empty (without_key key (slice_index_or blocks.old.items at []))) blocks.old.items }
    ensures empty { All (λ block. block ≡ []) spare.new.items }
    ensures count { length blocks.new.items + length spare.new.items ≡ length blocks.old.items + length spare.old.items }
    ensures blocks_capacity { vec_capacity blocks.new ≡ vec_capacity blocks.old }
    ensures spare_capacity { vec_capacity spare.new ≡ vec_capacity spare.old }
{
    let block = &mut blocks[at];
    block.drop_key(key);
    if block.len() == 0 {
        let block = blocks.remove(at);
        spare.push_reserved(block);
    }
}

/// Puts a key into its block, or into the first one, for which there is room.
pub(crate) fn put_key(blocks: &mut Vec<KeyBlock>, spare: &mut Vec<KeyBlock>, key: Key)
    requires sound { AreBlocks blocks.old.items spare.old.items (vec_capacity blocks.old) (vec_capacity spare.old) }
    requires room { 1 ≤ room_of blocks.old.items (length spare.old.items) }
    ensures sound { AreBlocks blocks.new.items spare.new.items (vec_capacity blocks.new) (vec_capacity spare.new) }
    ensures keys { joined blocks.new.items ≡ with_key key (joined blocks.old.items) }
    ensures room { room_of blocks.old.items (length spare.old.items) ≤ room_of blocks.new.items (length spare.new.items) + 1 }
{
    if blocks.is_empty() {
        let mut block = take_spare(spare);
        block.put(key);
        blocks.push_reserved(block);
        return;
    }
    let at = block_of(blocks.as_slice(), key);
    put_within(blocks, spare, at, key);
}

/// Drops a key from its block, if it is there.
pub(crate) fn drop_key(blocks: &mut Vec<KeyBlock>, spare: &mut Vec<KeyBlock>, key: Key)
    requires sound { AreBlocks blocks.old.items spare.old.items (vec_capacity blocks.old) (vec_capacity spare.old) }
    ensures sound { AreBlocks blocks.new.items spare.new.items (vec_capacity blocks.new) (vec_capacity spare.new) }
    ensures keys { joined blocks.new.items ≡ without_key key (joined blocks.old.items) }
    ensures room { room_of blocks.old.items (length spare.old.items) ≤ room_of blocks.new.items (length spare.new.items) }
{
    if blocks.is_empty() {
        return;
    }
    let at = block_of(blocks.as_slice(), key);
    drop_within(blocks, spare, at, key);
}

/// Makes more blocks, for which the list has place.
fn add_spare(spare: &mut Vec<KeyBlock>, count: usize, alloc: Global) -> Result<(), NoMemory>
    requires empty { All (λ block. block ≡ []) spare.old.items }
    requires place { length spare.old.items + count ≤ vec_capacity spare.old }
    ensures ok { OnOk result (length spare.new.items ≡ length spare.old.items + count) }
    ensures empty { All (λ block. block ≡ []) spare.new.items }
    ensures most { length spare.new.items ≤ length spare.old.items + count }
    ensures least { length spare.old.items ≤ length spare.new.items }
    ensures capacity { vec_capacity spare.new ≡ vec_capacity spare.old }
{
    for _ in 0..count {
        spare.push_reserved(KeyBlock::new(alloc)?);
    }
    Ok(())
}

/// Makes blocks until so many are spare, and place in both lists for all of them.
pub(crate) fn fill_spare(
    blocks: &mut Vec<KeyBlock>,
    spare: &mut Vec<KeyBlock>,
    wanted: usize,
    alloc: Global,
) -> Result<(), NoMemory>
    requires sound { AreBlocks blocks.old.items spare.old.items (vec_capacity blocks.old) (vec_capacity spare.old) }
    ensures sound { AreBlocks blocks.new.items spare.new.items (vec_capacity blocks.new) (vec_capacity spare.new) }
    ensures same { blocks.new.items ≡ blocks.old.items }
    ensures ok { OnOk result (wanted ≤ length spare.new.items) }
    ensures no_less { length spare.old.items ≤ length spare.new.items }
{
    if spare.len() >= wanted {
        return Ok(());
    }
    blocks.reserve(wanted)?;
    spare.reserve(blocks.capacity() - spare.len())?;
    add_spare(spare, wanted - spare.len(), alloc)
}
