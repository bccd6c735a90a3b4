//! The callbacks of an executor: a batch of results, which an admin takes or the spool keeps.
ghost use Rattle.std.specs.Prelude.{◌≡◌};
ghost use Rattle.executor_calls.specs.Gaining.{Gained};
ghost use Rattle.executor_calls.specs.Callbacks.{items_in, is_out, TakeGave, AgainGave, AskGave, KeptGave, AckGave, FailGave, SendGave, CallbackGave};

use crate::beat::admin_path;
use api_messages::write_callbacks;
use executor_node::act::act;
use executor_node::{ExecutorMachine, ExecutorSettings};
use job_events::{ExecutorEvent, ExecutorRefusal, ExecutorReply};
use job_values::{CallbackItem, NoMemory, Seq};
use node_asks::ask_first;
use outside::{Dialer, Spool};
use spool_text::write_spool;
use std::alloc::Global;
use std::sync::Wait;
use turn_lock::{Seat, Shared};

/// What became of a callback.
#[derive(Clone, Copy, PartialEq, Eq)]
pub enum CallbackDone {
    /// No item waits.
    Idle,
    /// An admin took so many items.
    Acked { items: u64 },
    /// No admin took them.
    Failed { saved: bool },
}

/// The items of a batch that was taken.
fn items_in(reply: ExecutorReply) -> Option<Seq<CallbackItem>>
    ensures { result ≡ items_in reply }
{
    match reply {
        ExecutorReply::Batch(items) => Some(items),
        ExecutorReply::Done
        | ExecutorReply::Queued(_)
        | ExecutorReply::Killed(_)
        | ExecutorReply::Runs(_)
        | ExecutorReply::Item(_, _)
        | ExecutorReply::NoItem(_)
        | ExecutorReply::Expired(_)
        | ExecutorReply::Trimmed(_)
        | ExecutorReply::Lines(_)
        | ExecutorReply::Reloaded(_)
        | ExecutorReply::Kept(_)
        | ExecutorReply::Refused(_) => None,
    }
}

/// Whether a batch is out.
fn is_out(reply: &ExecutorReply) -> bool
    ensures { result ≡ is_out reply.now }
{
    matches!(reply, ExecutorReply::Refused(ExecutorRefusal::BatchOut))
}

/// Takes the batch behind one that an earlier call left, which fails.
fn take_again<R: Wait>(
    rt: &R,
    shared: &Shared<ExecutorMachine>,
    seat: &mut Seat<ExecutorMachine>,
) -> Result<Option<Seq<CallbackItem>>, NoMemory>
    requires { seat.old.shared ≡ shared.now }
    ensures { Gained seat.old seat.new (λ es. AgainGave es result) }
{
    act(rt, shared, seat, &ExecutorEvent::BatchFail(false))?;
    let reply = act(rt, shared, seat, &ExecutorEvent::BatchTake)?;
    Ok(items_in(reply))
}

/// Takes a batch, if an item waits.
fn take_items<R: Wait>(
    rt: &R,
    shared: &Shared<ExecutorMachine>,
    seat: &mut Seat<ExecutorMachine>,
) -> Result<Option<Seq<CallbackItem>>, NoMemory>
    requires { seat.old.shared ≡ shared.now }
    ensures { Gained seat.old seat.new (λ es. TakeGave es result) }
{
    let reply = act(rt, shared, seat, &ExecutorEvent::BatchTake)?;
    if is_out(&reply) {
        return take_again(rt, shared, seat);
    }
    Ok(items_in(reply))
}

/// The spool text of the items that are kept.
fn kept_text<R: Wait>(
    rt: &R,
    alloc: Global,
    shared: &Shared<ExecutorMachine>,
    seat: &mut Seat<ExecutorMachine>,
) -> Result<Seq<u8>, NoMemory>
    requires { seat.old.shared ≡ shared.now }
    ensures { Gained seat.old seat.new (λ es. KeptGave es result) }
{
    match act(rt, shared, seat, &ExecutorEvent::Kept)? {
        ExecutorReply::Kept(items) => write_spool(alloc, &items),
        _ => unreachable!(),
    }
}

/// Acknowledges the batch, which an admin took, and saves what is kept.
fn acknowledge<R: Wait, S: Spool>(
    rt: &R,
    alloc: Global,
    shared: &Shared<ExecutorMachine>,
    seat: &mut Seat<ExecutorMachine>,
    spool: &mut S,
    items: u64,
) -> Result<CallbackDone, NoMemory>
    requires { seat.old.shared ≡ shared.now }
    ensures { Gained seat.old seat.new (λ es. AckGave items es (S.seen spool.old) (S.seen spool.new) result) }
{
    act(rt, shared, seat, &ExecutorEvent::BatchAck)?;
    let text = kept_text(rt, alloc, shared, seat)?;
    let _saved = spool.save(text.as_slice());
    Ok(CallbackDone::Acked { items })
}

/// Saves what is kept, and fails the batch, which no admin took.
fn give_up<R: Wait, S: Spool>(
    rt: &R,
    alloc: Global,
    shared: &Shared<ExecutorMachine>,
    seat: &mut Seat<ExecutorMachine>,
    spool: &mut S,
) -> Result<CallbackDone, NoMemory>
    requires { seat.old.shared ≡ shared.now }
    ensures { Gained seat.old seat.new (λ es. FailGave es (S.seen spool.old) (S.seen spool.new) result) }
{
    let text = kept_text(rt, alloc, shared, seat)?;
    let saved = spool.save(text.as_slice()).is_ok();
    act(rt, shared, seat, &ExecutorEvent::BatchFail(saved))?;
    Ok(CallbackDone::Failed { saved })
}

/// Asks the admins to take these items, in order up to the first that does.
fn ask_admins<D: Dialer>(
    alloc: Global,
    settings: &ExecutorSettings,
    dialer: &mut D,
    items: &Seq<CallbackItem>,
) -> Result<Option<usize>, NoMemory>
    ensures { AskGave settings.now items.now (D.dials dialer.old) (D.dials dialer.new) result }
{
    let body = write_callbacks(alloc, items)?;
    let path = admin_path(alloc, &settings.base, "callback")?;
    ask_first(
        alloc,
        dialer,
        settings.admins.as_slice(),
        path.as_str(),
        &settings.token,
        body.as_slice(),
    )
}

/// Sends a batch to the admins.
fn send_items<R: Wait, S: Spool, D: Dialer>(
    rt: &R,
    alloc: Global,
    shared: &Shared<ExecutorMachine>,
    seat: &mut Seat<ExecutorMachine>,
    settings: &ExecutorSettings,
    spool: &mut S,
    dialer: &mut D,
    items: &Seq<CallbackItem>,
) -> Result<CallbackDone, NoMemory>
    requires { seat.old.shared ≡ shared.now }
    ensures { Gained seat.old seat.new (λ es. SendGave settings.now items.now (D.dials dialer.old) (D.dials dialer.new)
        (S.seen spool.old) (S.seen spool.new) es result) }
{
    match ask_admins(alloc, settings, dialer, items)? {
        Some(_) => acknowledge(rt, alloc, shared, seat, spool, items.len() as u64),
        None => give_up(rt, alloc, shared, seat, spool),
    }
}

/// Takes a batch of results, and sends it to the admins, in order up to the first that takes it. Where
/// none does, the spool keeps them. It may wait.
pub fn callback_once<R: Wait, S: Spool, D: Dialer>(
    rt: &R,
    alloc: Global,
    shared: &Shared<ExecutorMachine>,
    seat: &mut Seat<ExecutorMachine>,
    settings: &ExecutorSettings,
    spool: &mut S,
    dialer: &mut D,
) -> Result<CallbackDone, NoMemory>
    requires { seat.old.shared ≡ shared.now }
    ensures { Gained seat.old seat.new (λ es. CallbackGave settings.now (D.dials dialer.old) (D.dials dialer.new)
        (S.seen spool.old) (S.seen spool.new) es result) }
{
    match take_items(rt, shared, seat)? {
        Some(items) => send_items(rt, alloc, shared, seat, settings, spool, dialer, &items),
        None => Ok(CallbackDone::Idle),
    }
}
