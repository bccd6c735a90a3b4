//! How the key of a row is moved in a set.
ghost use Rattle.std.specs.Prelude.{◌≡◌, ◌+◌, ◌≤◌};
ghost use Rattle.row_indexes.specs.Entries.{with_entry, without_entry};

use sorted_blocks::{Key, SortedBlocks};

/// Drops a key, if there is one.
pub(crate) fn drop_entry(keys: &mut SortedBlocks, key: Option<Key>)
    ensures keys { keys.new.keys ≡ without_entry key keys.old.keys }
    ensures room { keys.old.room ≤ keys.new.room }
{
    if let Some(key) = key {
        keys.drop_key(key);
    }
}

/// Puts a key, if there is one.
pub(crate) fn put_entry(keys: &mut SortedBlocks, key: Option<Key>)
    requires { 1 ≤ keys.old.room }
    ensures keys { keys.new.keys ≡ with_entry key keys.old.keys }
    ensures room { keys.old.room ≤ keys.new.room + 1 }
{
    if let Some(key) = key {
        keys.put(key);
    }
}
