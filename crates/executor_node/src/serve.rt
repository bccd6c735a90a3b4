//! The requests of an executor's links.
ghost use Rattle.std.specs.Prelude.{◌≡◌, false};
ghost use Rattle.http_reading.specs.Requests.{stream};
ghost use Rattle.turn_lock.specs.Seats.{IsSameSeat};
ghost use Rattle.node_calls.specs.Exchanges.{scene, Gave, AnsweredGave, RoundGave, Serves};
ghost use Rattle.node_calls.specs.Bodies.{body_bytes};
ghost use Rattle.executor_node.specs.Standing.{IsLegalList};
ghost use Rattle.executor_node.specs.Exchanges.{IsAnswered, EventGave, CallGave, RequestGave, served_of};

use crate::act::act;
use crate::answer::{fault_body, reply_body};
use crate::call::{Call, check};
use crate::event::event_of;
use crate::machine::ExecutorMachine;
use crate::settings::ExecutorSettings;
use http_reading::{HttpBuffer, HttpFault, Request, read_request};
use job_events::ExecutorEvent;
use job_values::{Moment, NoMemory};
use node_calls::{Answer, Body, End, Fixed, Round, Served, one_more, write_answer, write_refusal};
use outside::{Clock, Link};
use std::alloc::Global;
use std::sync::Wait;
use turn_lock::{Seat, Shared};

/// Why a connection ended.
#[derive(Clone, Copy, PartialEq, Eq)]
pub enum ExecutorEnd {
    /// The link ended before a next request, or its last request closed it.
    Closed,
    /// A request could not be read, or its answer not written: the last fault.
    Http(HttpFault),
}

/// What became of a connection.
#[derive(Clone, Copy, PartialEq, Eq)]
pub struct ExecutorServed {
    /// How many whole requests were read, up to 2^64 - 1.
    pub requests: u64,
    pub end: ExecutorEnd,
}

/// Acts an event, and answers its reply.
fn answer_event<R: Wait>(
    rt: &R,
    alloc: Global,
    shared: &Shared<ExecutorMachine>,
    seat: &mut Seat<ExecutorMachine>,
    event: &ExecutorEvent,
) -> Body
    requires { seat.old.shared ≡ shared.now }
    ensures { EventGave event.now seat.old seat.new (body_bytes result) }
{
    match act(rt, shared, seat, event) {
        Ok(reply) => reply_body(alloc, &reply),
        Err(NoMemory) => Body::Fixed(Fixed::NoMemory),
    }
}

/// Answers a call with this body at a moment.
fn answer_call<R: Wait>(
    rt: &R,
    alloc: Global,
    shared: &Shared<ExecutorMachine>,
    seat: &mut Seat<ExecutorMachine>,
    call: Call,
    body: &[u8],
    at: Moment,
) -> Body
    requires { seat.old.shared ≡ shared.now }
    ensures { CallGave call body.now at seat.old seat.new (body_bytes result) }
{
    match event_of(alloc, call, body, at) {
        Ok(event) => answer_event(rt, alloc, shared, seat, &event),
        Err(fault) => fault_body(alloc, &fault),
    }
}

/// Answers a request at a moment.
fn answer_request<R: Wait>(
    rt: &R,
    alloc: Global,
    settings: &ExecutorSettings,
    shared: &Shared<ExecutorMachine>,
    seat: &mut Seat<ExecutorMachine>,
    request: &Request,
    at: Moment,
) -> Body
    requires { seat.old.shared ≡ shared.now }
    ensures { RequestGave settings.now.token request.now at seat.old seat.new (body_bytes result) }
{
    match check(&settings.token, request) {
        Err(fixed) => Body::Fixed(fixed),
        Ok(call) => answer_call(rt, alloc, shared, seat, call, request.body.as_slice(), at),
    }
}

/// Answers a request, with one reading of the clock.
fn answer<R: Wait, C: Clock>(
    rt: &R,
    alloc: Global,
    settings: &ExecutorSettings,
    shared: &Shared<ExecutorMachine>,
    seat: &mut Seat<ExecutorMachine>,
    clock: &mut C,
    request: &Request,
) -> Answer
    requires { seat.old.shared ≡ shared.now }
    ensures { Gave IsLegalList (IsAnswered settings.now.token) (C.readings clock.old) (C.readings clock.new) seat.old seat.new request.now result }
{
    let at = clock.now();
    let body = answer_request(rt, alloc, settings, shared, seat, request, at);
    Answer { body, last: false }
}

/// Answers a request, and writes the answer.
fn answer_one<R: Wait, C: Clock, L: Link>(
    rt: &R,
    alloc: Global,
    settings: &ExecutorSettings,
    shared: &Shared<ExecutorMachine>,
    seat: &mut Seat<ExecutorMachine>,
    clock: &mut C,
    link: &mut L,
    text: &mut Vec<u8>,
    request: &Request,
) -> Round
    requires { seat.old.shared ≡ shared.now }
    ensures gave { AnsweredGave IsLegalList (IsAnswered settings.now.token)
        (scene seat.old (C.readings clock.old) (L.taken link.old) (L.met link.old) (L.faults link.old))
        (scene seat.new (C.readings clock.new) (L.taken link.new) (L.met link.new) (L.faults link.new)) request.now result }
    ensures other { L.left link.new ≡ L.left link.old }
{
    let answer = answer(rt, alloc, settings, shared, seat, clock, request);
    match write_answer(link, text, answer.body.as_slice()) {
        Err(fault) => Round::Last(End::Http(fault)),
        Ok(()) => {
            if answer.last {
                Round::Last(End::Stopped)
            } else if request.close {
                Round::Last(End::Closed)
            } else {
                Round::Open
            }
        }
    }
}

/// Reads the next request, answers it, and writes the answer.
fn serve_next<R: Wait, C: Clock, L: Link>(
    rt: &R,
    alloc: Global,
    settings: &ExecutorSettings,
    shared: &Shared<ExecutorMachine>,
    seat: &mut Seat<ExecutorMachine>,
    clock: &mut C,
    link: &mut L,
    buffer: &mut HttpBuffer,
    text: &mut Vec<u8>,
) -> Round
    requires here { seat.old.shared ≡ shared.now }
    requires clean { buffer.old.faulted ≡ false }
    ensures gave { RoundGave IsLegalList (IsAnswered settings.now.token)
        (scene seat.old (C.readings clock.old) (L.taken link.old) (L.met link.old) (L.faults link.old))
        (scene seat.new (C.readings clock.new) (L.taken link.new) (L.met link.new) (L.faults link.new))
        (stream buffer.old.bytes (L.left link.old)) (stream buffer.new.bytes (L.left link.new)) result }
    ensures clean { result ≡ Round.Open → buffer.new.faulted ≡ false }
{
    match read_request(alloc, link, buffer) {
        Ok(Some(request)) => {
            answer_one(
                rt, alloc, settings, shared, seat, clock, link, text, &request,
            )
        }
        Ok(None) => Round::None(End::Closed),
        Err(fault) => Round::None(End::Http(write_refusal(alloc, link, fault))),
    }
}

/// Answers the requests of a link, one after another, until it is closed. It may wait.
fn serve_all<R: Wait, C: Clock, L: Link>(
    rt: &R,
    alloc: Global,
    settings: &ExecutorSettings,
    shared: &Shared<ExecutorMachine>,
    seat: &mut Seat<ExecutorMachine>,
    clock: &mut C,
    link: &mut L,
) -> Served
    requires { seat.old.shared ≡ shared.now }
    ensures same { IsSameSeat seat.old seat.new }
    ensures serves { Serves IsLegalList (IsAnswered settings.now.token)
        (scene seat.old (C.readings clock.old) (L.taken link.old) (L.met link.old) (L.faults link.old))
        (scene seat.new (C.readings clock.new) (L.taken link.new) (L.met link.new) (L.faults link.new))
        (L.left link.old) result }
{
    let mut buffer = HttpBuffer::new(alloc);
    let mut text = Vec::new(alloc);
    let mut requests = 0;
    for _ in rt.forever() {
        match serve_next(
            rt,
            alloc,
            settings,
            shared,
            seat,
            clock,
            link,
            &mut buffer,
            &mut text,
        ) {
            Round::Open => requests = one_more(requests),
            Round::Last(end) => {
                return Served {
                    requests: one_more(requests),
                    end,
                };
            }
            Round::None(end) => return Served { requests, end },
        }
    }
    unreachable!()
}

/// Answers the requests of a link, one after another, until it is closed. It may wait.
pub fn serve_executor<R: Wait, C: Clock, L: Link>(
    rt: &R,
    alloc: Global,
    settings: &ExecutorSettings,
    shared: &Shared<ExecutorMachine>,
    seat: &mut Seat<ExecutorMachine>,
    clock: &mut C,
    link: &mut L,
) -> ExecutorServed
    requires { seat.old.shared ≡ shared.now }
    ensures same { IsSameSeat seat.old seat.new }
    ensures serves { Serves IsLegalList (IsAnswered settings.now.token)
        (scene seat.old (C.readings clock.old) (L.taken link.old) (L.met link.old) (L.faults link.old))
        (scene seat.new (C.readings clock.new) (L.taken link.new) (L.met link.new) (L.faults link.new))
        (L.left link.old) (served_of result) }
{
    let served = serve_all(rt, alloc, settings, shared, seat, clock, link);
    let end = match served.end {
        End::Closed => ExecutorEnd::Closed,
        End::Http(fault) => ExecutorEnd::Http(fault),
        End::Stopped => unreachable!(),
    };
    ExecutorServed {
        requests: served.requests,
        end,
    }
}
