//! Items that go to the results, and ids that are released.
ghost use Rattle.std.specs.Prelude.{◌≡◌, ◌+◌, ◌≤◌, ◌++◌, [], ◌∷◌, length, drop, take, IfOk, vec_len};
ghost use Rattle.std.specs.VecDeque.{deque_len};
ghost use Rattle.callback_spool.specs.Different.{HaveDifferentLogs};
ghost use Rattle.executor_history.specs.Past.{released, put_ids, taken_batch, left_waiting};

use super::ids::Ids;
use callback_spool::Callbacks;
use job_values::{CallbackItem, NoMemory, Seq};
use std::alloc::Global;
use std::collections::VecDeque;

/// Puts these items behind those that wait. There is room for them.
pub fn add_all(callbacks: &mut Callbacks, items: Vec<CallbackItem>)
    requires { vec_len items ≤ callbacks.old.room }
    ensures waiting { callbacks.new.waiting ≡ callbacks.old.waiting ++ items.items }
    ensures batch { callbacks.new.batch ≡ callbacks.old.batch }
    ensures spooled { callbacks.new.spooled ≡ callbacks.old.spooled }
{
    let mut left = VecDeque::from_vec(items);
    while let Some(item) = left.pop_front() {
        callbacks.add(item);
    }
}

/// Takes a batch, where none is out.
pub fn take_out(callbacks: &mut Callbacks)
    ensures waiting { callbacks.new.waiting ≡ left_waiting callbacks.old.batch callbacks.old.waiting }
    ensures batch { callbacks.new.batch ≡ taken_batch callbacks.old.batch callbacks.old.waiting }
    ensures spooled { callbacks.new.spooled ≡ callbacks.old.spooled }
{
    let _taken = callbacks.take_batch();
}

/// Releases the ids of these items.
pub fn release_all(held: &mut Ids, items: &VecDeque<CallbackItem>)
    ensures { held.new.ids ≡ released items.now.items held.old.ids }
{
    for place in 0..items.len() {
        if let Some(item) = items.get(place) {
            held.release(item.log);
        }
    }
}

/// Holds the ids of these items.
pub fn hold_all(held: &mut Ids, items: &[CallbackItem]) -> Result<(), NoMemory>
    requires different { HaveDifferentLogs items.now }
    requires none { held.old.ids ≡ [] }
    ensures { IfOk result (λ _. held.new.ids ≡ put_ids items.now held.old.ids) }
{
    for item in items {
        held.reserve()?;
        held.put(item.log);
    }
    Ok(())
}

/// Puts copies of the first of these items behind others.
pub fn copy_first(
    alloc: Global,
    to: &mut Seq<CallbackItem>,
    from: &VecDeque<CallbackItem>,
    count: usize,
) -> Result<(), NoMemory>
    requires { count ≤ deque_len from.now }
    ensures { IfOk result (λ _. to.new ≡ to.old ++ take count from.now.items) }
{
    for place in 0..count {
        if let Some(item) = from.get(place) {
            to.push(item.copy(alloc)?)?;
        }
    }
    Ok(())
}
