//! How much one batch takes, and the moves of items from list to list.
ghost use Rattle.std.specs.Prelude.{◌≡◌, ◌+◌, ◌<◌, ◌≤◌, [], ◌∷◌, ◌++◌, length, take, drop};
ghost use Rattle.std.specs.VecDeque.{deque_len, deque_capacity};
ghost use Rattle.callback_spool.specs.Batches.{fitting, batch_len};

use job_values::CallbackItem;
use job_values::limits::{BATCH_BYTES, BATCH_ITEMS};
use std::collections::VecDeque;

/// How many of these items the next batch takes: the longest prefix within both limits.
pub fn fitting_items(items: &VecDeque<CallbackItem>) -> usize
    ensures value { result ≡ batch_len items.now.items }
    ensures within { result ≤ deque_len items.now }
{
    let most = BATCH_ITEMS;
    let mut bytes = 0;
    for count in 0..most {
        let Some(item) = items.get(count) else {
            return count;
        };
        let text = item.msg.get().len();
        if bytes + text > BATCH_BYTES {
            return count;
        }
        bytes += text;
    }
    most
}

/// Moves the first items of one list behind those of another, which has room for them.
pub fn move_first(from: &mut VecDeque<CallbackItem>, to: &mut VecDeque<CallbackItem>, count: usize)
    requires within { count ≤ deque_len from.old }
    requires room { deque_len to.old + count ≤ deque_capacity to.old }
    ensures from { from.new.items ≡ drop count from.old.items }
    ensures to { to.new.items ≡ to.old.items ++ take count from.old.items }
    ensures from_len { deque_len from.new + count ≡ deque_len from.old }
    ensures to_len { deque_len to.new ≡ deque_len to.old + count }
    ensures from_capacity { deque_capacity from.new ≡ deque_capacity from.old }
    ensures to_capacity { deque_capacity to.new ≡ deque_capacity to.old }
{
    for _moved in 0..count {
        if let Some(item) = from.pop_front() {
            to.push_back_reserved(item);
        }
    }
}

/// Moves the items of one list in front of those of another, which has room for them.
pub fn move_back(from: &mut VecDeque<CallbackItem>, to: &mut VecDeque<CallbackItem>)
    requires { deque_len to.old + deque_len from.old ≤ deque_capacity to.old }
    ensures from { from.new.items ≡ [] }
    ensures to { to.new.items ≡ from.old.items ++ to.old.items }
    ensures from_len { deque_len from.new ≡ 0 }
    ensures to_len { deque_len to.new ≡ deque_len to.old + deque_len from.old }
    ensures from_capacity { deque_capacity from.new ≡ deque_capacity from.old }
    ensures to_capacity { deque_capacity to.new ≡ deque_capacity to.old }
{
    while let Some(item) = from.pop_back() {
        to.push_front_reserved(item);
    }
}
