//! What a call is answered.
ghost use Rattle.std.specs.Prelude.{◌≡◌, ℕ, List, ◌++◌, ◌∷◌, [], decimal, IfOk, OnOk, codes};
ghost use Rattle.node_calls.specs.Bodies.{body_bytes, refused_body};
ghost use Rattle.executor_node.specs.Answers.{reply_text, refusal_text, fault_text, Says};

use crate::lines::lines_body;
use api_messages::MessageFault;
use itoa::Buffer;
use job_events::{ExecutorRefusal, ExecutorReply};
use job_values::{LogId, NoMemory, Seq};
use node_calls::{Body, Fixed, put};
use std::alloc::Global;

/// The body that refuses a call with a text of these two parts.
fn refused(alloc: Global, first: &[u8], second: &[u8]) -> Result<Seq<u8>, NoMemory>
    ensures { IfOk result (λ b. b ≡ refused_body (first.now ++ second.now)) }
{
    let mut text = Vec::new(alloc);
    put(&mut text, b"{\"code\":500,\"msg\":\"")?;
    put(&mut text, first)?;
    put(&mut text, second)?;
    put(&mut text, b"\"}")?;
    Ok(Seq::of(text))
}

/// A body that was made, or that of want of memory.
fn made(bytes: Result<Seq<u8>, NoMemory>) -> Body
    ensures { (text : List ℕ) → IfOk bytes (λ b. b ≡ text) → Says text (body_bytes result) }
{
    match bytes {
        Ok(bytes) => Body::Made(bytes),
        Err(NoMemory) => Body::Fixed(Fixed::NoMemory),
    }
}

/// The answer to a run whose log is held.
fn held_body(alloc: Global, log: LogId) -> Body
    ensures { Says (refused_body (codes "repeate trigger job, logId:" ++ decimal log)) (body_bytes result) }
{
    let mut digits = Buffer::new();
    made(refused(
        alloc,
        b"repeate trigger job, logId:",
        digits.format(log.get()).as_bytes(),
    ))
}

/// What a refused event is answered.
fn refusal_body(alloc: Global, refusal: ExecutorRefusal) -> Body
    ensures { Says (refusal_text refusal) (body_bytes result) }
{
    match refusal {
        ExecutorRefusal::Held(log) => held_body(alloc, log),
        ExecutorRefusal::NotBean => Body::Fixed(Fixed::NotBean),
        ExecutorRefusal::NoHandler => Body::Fixed(Fixed::NoHandler),
        ExecutorRefusal::Discarded => Body::Fixed(Fixed::Discarded),
        ExecutorRefusal::HeldFull => Body::Fixed(Fixed::HeldFull),
        ExecutorRefusal::Running => Body::Fixed(Fixed::Running),
        ExecutorRefusal::NoLines => Body::Fixed(Fixed::NoLines),
        ExecutorRefusal::RunnerBusy(_)
        | ExecutorRefusal::Nothing
        | ExecutorRefusal::NotRunning
        | ExecutorRefusal::LinesFull
        | ExecutorRefusal::BatchOut
        | ExecutorRefusal::NoBatch => Body::Fixed(Fixed::Done),
    }
}

/// What an event with this reply is answered.
pub fn reply_body(alloc: Global, reply: &ExecutorReply) -> Body
    ensures { Says (reply_text reply.now) (body_bytes result) }
{
    match reply {
        ExecutorReply::Refused(refusal) => refusal_body(alloc, *refusal),
        ExecutorReply::Lines(lines) => made(lines_body(alloc, lines)),
        ExecutorReply::Done
        | ExecutorReply::Queued(_)
        | ExecutorReply::Killed(_)
        | ExecutorReply::Runs(_)
        | ExecutorReply::Item(_, _)
        | ExecutorReply::NoItem(_)
        | ExecutorReply::Expired(_)
        | ExecutorReply::Trimmed(_)
        | ExecutorReply::Batch(_)
        | ExecutorReply::Reloaded(_)
        | ExecutorReply::Kept(_) => Body::Fixed(Fixed::Done),
    }
}

/// What a message with this fault is answered.
pub fn fault_body(alloc: Global, fault: &MessageFault) -> Body
    ensures { Says (fault_text fault.now) (body_bytes result) }
{
    match fault {
        MessageFault::NotJson => made(refused(alloc, b"bad message 1", b"")),
        MessageFault::WrongShape => made(refused(alloc, b"bad message 2", b"")),
        MessageFault::Member { which } => {
            made(refused(alloc, b"bad message 3 ", which.as_bytes()))
        }
        MessageFault::TooLong => made(refused(alloc, b"bad message 4", b"")),
        MessageFault::NoMemory => Body::Fixed(Fixed::NoMemory),
    }
}
