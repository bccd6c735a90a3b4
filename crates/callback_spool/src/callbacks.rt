//! The results of an executor: three lists, and the batch that goes out.
ghost use Rattle.std.specs.Prelude.{◌≡◌, ◌+◌, ◌≤◌, ◌≢◌, [], ◌∷◌, ◌++◌, length, take, drop, OnOk, OnErr, if◌then◌else◌};
ghost use Rattle.callback_spool.specs.Batches.{batch_len};
ghost use Rattle.callback_spool.specs.Answers.{taken_answer, batch_answer};

use super::batch::{fitting_items, move_back, move_first};
use job_values::{CallbackItem, NoMemory};
use std::alloc::Global;
use std::collections::VecDeque;
use std::marker::Model;

/// Why a call of `Callbacks` was refused.
#[derive(Clone, Copy, Debug, PartialEq, Eq)]
pub enum CallbackRefusal {
    /// A batch is out.
    BatchOut,
    /// No item waits.
    Nothing,
    /// No batch is out.
    NoBatch,
}

/// The results of an executor, as three lists: those that wait, those of the batch that is out, and those that are
/// spooled. Each list always has room for the items of all three.
#[derive(Drop)]
pub struct Callbacks {
    waiting: VecDeque<CallbackItem>,
    batch: VecDeque<CallbackItem>,
    spooled: VecDeque<CallbackItem>,
}

impl Model for Callbacks {
    ghost use Rattle.std.specs.Prelude.{◌+◌, ◌-◌, ◌≤◌, min};
    ghost use Rattle.std.specs.VecDeque.{deque_len, deque_capacity};
    ghost use Rattle.callback_spool.specs.Lists.{Lists};

    ghost Value = { Lists };

    ghost view = { λ c. record {
      waiting = c.waiting.items;
      batch = c.batch.items;
      spooled = c.spooled.items;
      room = min (deque_capacity c.waiting) (min (deque_capacity c.batch) (deque_capacity c.spooled)) - (deque_len c.waiting + deque_len c.batch + deque_len c.spooled);
    } };

    ghost invariant = { λ c. deque_len c.waiting + deque_len c.batch + deque_len c.spooled ≤ min (deque_capacity c.waiting) (min (deque_capacity c.batch) (deque_capacity c.spooled)) };
}

impl Callbacks {
    /// No item. It takes no memory.
    pub fn new(alloc: Global) -> Callbacks
        ensures waiting { result.waiting ≡ [] }
        ensures batch { result.batch ≡ [] }
        ensures spooled { result.spooled ≡ [] }
    {
        Callbacks {
            waiting: VecDeque::new(alloc),
            batch: VecDeque::new(alloc),
            spooled: VecDeque::new(alloc),
        }
    }

    /// Makes each list large enough for the items of all three and `count` more.
    pub fn reserve(&mut self, count: usize) -> Result<(), NoMemory>
        ensures waiting { self.new.waiting ≡ self.old.waiting }
        ensures batch { self.new.batch ≡ self.old.batch }
        ensures spooled { self.new.spooled ≡ self.old.spooled }
        ensures room { OnOk result (count ≤ self.new.room) }
        ensures kept { self.old.room ≤ self.new.room }
    {
        let items = self
            .waiting
            .len()
            .checked_add(self.batch.len())
            .and_then(|sum| sum.checked_add(self.spooled.len()))
            .and_then(|sum| sum.checked_add(count))
            .ok_or(NoMemory)?;
        self.waiting.reserve(items - self.waiting.len())?;
        self.batch.reserve(items - self.batch.len())?;
        self.spooled.reserve(items - self.spooled.len())?;
        Ok(())
    }

    /// Puts an item behind those that wait. It takes no memory.
    pub fn add(&mut self, item: CallbackItem)
        requires { 1 ≤ self.old.room }
        ensures waiting { self.new.waiting ≡ self.old.waiting ++ item ∷ [] }
        ensures batch { self.new.batch ≡ self.old.batch }
        ensures spooled { self.new.spooled ≡ self.old.spooled }
        ensures room { self.new.room + 1 ≡ self.old.room }
    {
        self.waiting.push_back_reserved(item);
    }

    /// The items that wait.
    pub fn waiting(&self) -> &VecDeque<CallbackItem>
        ensures { result.now.items ≡ self.now.waiting }
    {
        &self.waiting
    }

    /// The items of the batch that is out.
    pub fn batch(&self) -> &VecDeque<CallbackItem>
        ensures { result.now.items ≡ self.now.batch }
    {
        &self.batch
    }

    /// The items that are spooled.
    pub fn spooled(&self) -> &VecDeque<CallbackItem>
        ensures { result.now.items ≡ self.now.spooled }
    {
        &self.spooled
    }

    /// Takes the longest prefix of the waiting items within the limits of items and of bytes of text. It takes no memory.
    pub fn take_batch(&mut self) -> Result<(), CallbackRefusal>
        ensures result { result ≡ taken_answer self.old.waiting self.old.batch }
        ensures err { OnErr result (self.new ≡ self.old) }
        ensures waiting { OnOk result (self.new.waiting ≡ drop (batch_len self.old.waiting) self.old.waiting) }
        ensures batch { OnOk result (self.new.batch ≡ take (batch_len self.old.waiting) self.old.waiting) }
        ensures spooled { self.new.spooled ≡ self.old.spooled }
        ensures room { self.new.room ≡ self.old.room }
    {
        if !self.batch.is_empty() {
            return Err(CallbackRefusal::BatchOut);
        }
        if self.waiting.is_empty() {
            return Err(CallbackRefusal::Nothing);
        }
        let count = fitting_items(&self.waiting);
        move_first(&mut self.waiting, &mut self.batch, count);
        Ok(())
    }

    /// Releases the items of the batch. It takes no memory.
    pub fn ack(&mut self) -> Result<(), CallbackRefusal>
        ensures result { result ≡ batch_answer self.old.batch }
        ensures waiting { self.new.waiting ≡ self.old.waiting }
        ensures batch { self.new.batch ≡ [] }
        ensures spooled { self.new.spooled ≡ self.old.spooled }
        ensures room { self.old.room ≤ self.new.room }
    {
        if self.batch.is_empty() {
            return Err(CallbackRefusal::NoBatch);
        }
        self.batch.clear();
        Ok(())
    }

    /// Puts the items of the batch behind the spooled ones where they were saved, else in front of the waiting ones.
    /// It takes no memory.
    pub fn fail_to(&mut self, saved: bool) -> Result<(), CallbackRefusal>
        ensures result { result ≡ batch_answer self.old.batch }
        ensures waiting { self.new.waiting ≡ (if saved then self.old.waiting else self.old.batch ++ self.old.waiting) }
        ensures batch { self.new.batch ≡ [] }
        ensures spooled { self.new.spooled ≡ (if saved then self.old.spooled ++ self.old.batch else self.old.spooled) }
        ensures room { self.new.room ≡ self.old.room }
    {
        if self.batch.is_empty() {
            return Err(CallbackRefusal::NoBatch);
        }
        if saved {
            let count = self.batch.len();
            move_first(&mut self.batch, &mut self.spooled, count);
        } else {
            move_back(&mut self.batch, &mut self.waiting);
        }
        Ok(())
    }

    /// Moves the spooled items behind the waiting ones, and answers how many there were. It takes no memory.
    pub fn reload(&mut self) -> u64
        ensures result { result ≡ length self.old.spooled }
        ensures waiting { self.new.waiting ≡ self.old.waiting ++ self.old.spooled }
        ensures batch { self.new.batch ≡ self.old.batch }
        ensures spooled { self.new.spooled ≡ [] }
        ensures room { self.new.room ≡ self.old.room }
    {
        let count = self.spooled.len();
        move_first(&mut self.spooled, &mut self.waiting, count);
        count as u64
    }
}
