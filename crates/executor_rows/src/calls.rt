//! The calls of a row, and what they give:
//!
//! | Call | What it gives |
//! |---|---|
//! | `/PATH BODY` | the body of the answer to this request |
//! | `run R` | `idle`, or `ran` with the log and the code |
//! | `callback A A` | `idle`, `acked N`, `saved` or `not saved`; with ` unsaved` at the end its save fails |
//! | `beat A A` | how many admins answered with code 200 |
//! | `asked N` | the host of the N-th dial of the last such call, and `refused` or the path and the body |
//! | `expire` | how many runs were given their result |
//! | `tend` | how many results wait again, and the lines of how many logs were dropped |
//! | `file N` | the N-th line of the file, or `end` |
//! | `poll R`, `take`, `save` | the log of the run, and the number of the items: what a call does first, which is then cut off |
//!
//! An admin A is `refused`, which refuses its dial, `silent`, or the code with which it answers.
ghost use Rattle.std.specs.Prelude.{◌≡◌, OnOk};
ghost use Rattle.turn_lock.specs.Seats.{IsSameSeat};

use crate::handlers::RowHandlers;
use crate::setting::{beginning, number, settings};
use crate::wire::{answer_text, asked_of, body_of, call_text};
use executor_calls::{
    CallbackDone, RunDone, beat_once, callback_once, expire_once, run_once, tend_once,
};
use executor_node::act::act;
use executor_node::{ExecutorMachine, ExecutorSettings, serve_executor};
use job_events::{ExecutorEvent, ExecutorReply};
use job_values::{Moment, NoMemory, RunnerNo};
use outside::{MemoryClock, MemoryDialer, MemoryLink, MemorySpool};
use spool_text::write_spool;
use std::alloc::Global;
use std::collections::VecDeque;
use std::mem;
use std::sync::Wait;
use turn_lock::{Seat, Shared};

/// What outlasts an executor, and what its last callback or beat dialed.
#[derive(Drop)]
pub struct World {
    token: String,
    at: Moment,
    file: Vec<u8>,
    dialer: MemoryDialer,
}

impl World {
    /// No token and no file, at the beginning.
    pub fn new(alloc: Global) -> World {
        World {
            token: String::new(alloc),
            at: beginning(),
            file: Vec::new(alloc),
            dialer: MemoryDialer::new(alloc, VecDeque::new(alloc)),
        }
    }

    /// Takes a line on what the executor begins with; whether it is one.
    pub fn is_set(&mut self, line: &str) -> Result<bool, NoMemory> {
        if let Some(token) = line.strip_prefix("token ") {
            self.token.push_str(token)?;
            return Ok(true);
        }
        let Some(item) = line.strip_prefix("kept ") else {
            return Ok(false);
        };
        self.file.extend_from_slice(item.as_bytes())?;
        self.file.push(b'\n')?;
        Ok(true)
    }

    /// Takes a line `clock N`; whether it is one.
    pub fn is_moved(&mut self, line: &str) -> bool {
        match line.strip_prefix("clock ") {
            Some(ms) => match Moment::new(number(ms)) {
                Some(at) => {
                    self.at = at;
                    true
                }
                None => false,
            },
            None => false,
        }
    }

    /// The bytes of the file.
    pub fn file(&self) -> &[u8] {
        self.file.as_slice()
    }

    fn settings(&self, alloc: Global) -> Result<ExecutorSettings, NoMemory> {
        settings(alloc, self.token.as_str())
    }

    fn clock(&self, alloc: Global) -> MemoryClock {
        MemoryClock::new(alloc, self.at)
    }

    /// A line of the file, counted from 1.
    fn line(&self, alloc: Global, number: u64) -> Result<String, NoMemory> {
        let file = String::from_utf8_lossy(alloc, self.file.as_slice())?;
        let line = match file.split('\n').nth(number.saturating_sub(1) as usize) {
            Some("") => "end",
            Some(line) => line,
            None => "none",
        };
        Ok(String::from_str(alloc, line)?)
    }

    /// What was asked in the last callback or beat, counted from 1.
    fn asked(&self, alloc: Global, number: u64) -> Result<String, NoMemory> {
        let dials = self.dialer.dials().unwrap_or(&[]);
        let Some(dial) = dials.get(number.saturating_sub(1) as usize) else {
            return Ok(String::from_str(alloc, "none")?);
        };
        let host = format!(in alloc; "{}:{}", dial.host.as_str(), dial.port)?;
        match &dial.shown {
            Some(shown) => asked_of(
                alloc,
                host.as_str(),
                self.token.as_str(),
                shown.written.as_slice(),
            ),
            None => Ok(format!(in alloc; "{host} refused")?),
        }
    }
}

/// A dialer to admins that do as these words say.
fn dialer(alloc: Global, words: &str) -> Result<MemoryDialer, NoMemory> {
    let mut script = VecDeque::new(alloc);
    for word in words.split(' ') {
        let link = match word {
            "refused" | "unsaved" => None,
            "silent" => Some(MemoryLink::new(alloc, Vec::new(alloc))),
            code => {
                let body = format!(in alloc; "{{\"code\":{code}}}")?;
                Some(MemoryLink::new(alloc, answer_text(alloc, body.as_bytes())?))
            }
        };
        script.push_back(link)?;
    }
    Ok(MemoryDialer::new(alloc, script))
}

/// The body of the answer to a request.
fn request<R: Wait>(
    rt: &R,
    alloc: Global,
    shared: &Shared<ExecutorMachine>,
    seat: &mut Seat<ExecutorMachine>,
    world: &World,
    path: &str,
    body: &str,
) -> Result<String, NoMemory>
    requires { seat.old.shared ≡ shared.now }
    ensures { OnOk result (IsSameSeat seat.old seat.new) }
{
    let settings = world.settings(alloc)?;
    let mut clock = world.clock(alloc);
    let text = call_text(alloc, path, world.token.as_str(), body)?;
    let mut link = MemoryLink::new(alloc, text);
    let _served = serve_executor(rt, alloc, &settings, shared, seat, &mut clock, &mut link);
    body_of(alloc, link.taken())
}

/// A turn of a runner.
#[tactic(auto, using(crate::proofs::Same::gained_by_same))]
fn run<R: Wait>(
    rt: &R,
    alloc: Global,
    shared: &Shared<ExecutorMachine>,
    seat: &mut Seat<ExecutorMachine>,
    world: &World,
    runner: RunnerNo,
) -> Result<String, NoMemory>
    requires { seat.old.shared ≡ shared.now }
    ensures { OnOk result (IsSameSeat seat.old seat.new) }
{
    let handlers = RowHandlers::new(alloc)?;
    let mut clock = world.clock(alloc);
    match run_once(rt, alloc, shared, seat, runner, &handlers, &mut clock)? {
        RunDone::Idle => Ok(String::from_str(alloc, "idle")?),
        RunDone::Ran { log, code } => Ok(format!(in alloc; "ran {} {code}", log.get())?),
    }
}

/// A callback to admins that do as the words say.
#[tactic(auto, using(crate::proofs::Same::gained_same))]
fn callback<R: Wait>(
    rt: &R,
    alloc: Global,
    shared: &Shared<ExecutorMachine>,
    seat: &mut Seat<ExecutorMachine>,
    world: &mut World,
    words: &str,
) -> Result<String, NoMemory>
    requires { seat.old.shared ≡ shared.now }
    ensures { OnOk result (IsSameSeat seat.old seat.new) }
{
    let settings = world.settings(alloc)?;
    world.dialer = dialer(alloc, words)?;
    let file = mem::replace(&mut world.file, Vec::new(alloc));
    let mut spool = MemorySpool::new(alloc, file);
    if words.ends_with(" unsaved") {
        spool = spool.failing(vec![in alloc; 1u64]?);
    }
    let done = callback_once(
        rt,
        alloc,
        shared,
        seat,
        &settings,
        &mut spool,
        &mut world.dialer,
    )?;
    world.file.extend_from_slice(spool.bytes())?;
    match done {
        CallbackDone::Idle => Ok(String::from_str(alloc, "idle")?),
        CallbackDone::Acked { items } => Ok(format!(in alloc; "acked {items}")?),
        CallbackDone::Failed { saved: true } => Ok(String::from_str(alloc, "saved")?),
        CallbackDone::Failed { saved: false } => Ok(String::from_str(alloc, "not saved")?),
    }
}

/// A beat to admins that do as the words say.
fn beat(alloc: Global, world: &mut World, words: &str) -> Result<String, NoMemory> {
    let settings = world.settings(alloc)?;
    world.dialer = dialer(alloc, words)?;
    let count = beat_once(alloc, &settings, &mut world.dialer)?;
    Ok(format!(in alloc; "{count}")?)
}

/// What looks after the executor: saved results wait again, and lines of old logs are dropped.
#[tactic(auto, using(crate::proofs::Same::gained_at_same))]
fn tend<R: Wait>(
    rt: &R,
    alloc: Global,
    shared: &Shared<ExecutorMachine>,
    seat: &mut Seat<ExecutorMachine>,
    world: &World,
) -> Result<String, NoMemory>
    requires { seat.old.shared ≡ shared.now }
    ensures { OnOk result (IsSameSeat seat.old seat.new) }
{
    let done = tend_once(rt, shared, seat, &mut world.clock(alloc))?;
    Ok(format!(in alloc; "{} {}", done.reloaded, done.trimmed)?)
}

/// Runs that last too long are given their result.
#[tactic(auto, using(crate::proofs::Same::gained_at_same))]
fn expire<R: Wait>(
    rt: &R,
    alloc: Global,
    shared: &Shared<ExecutorMachine>,
    seat: &mut Seat<ExecutorMachine>,
    world: &World,
) -> Result<String, NoMemory>
    requires { seat.old.shared ≡ shared.now }
    ensures { OnOk result (IsSameSeat seat.old seat.new) }
{
    let count = expire_once(rt, shared, seat, &mut world.clock(alloc))?;
    Ok(format!(in alloc; "{count}")?)
}

/// One event alone.
fn event<R: Wait>(
    rt: &R,
    alloc: Global,
    shared: &Shared<ExecutorMachine>,
    seat: &mut Seat<ExecutorMachine>,
    world: &mut World,
    event: &ExecutorEvent,
) -> Result<String, NoMemory>
    requires { seat.old.shared ≡ shared.now }
    ensures { OnOk result (IsSameSeat seat.old seat.new) }
{
    match act(rt, shared, seat, event)? {
        ExecutorReply::Runs(run) => Ok(format!(in alloc; "{}", run.log.get())?),
        ExecutorReply::Batch(items) => Ok(format!(in alloc; "{}", items.len())?),
        ExecutorReply::Kept(items) => {
            world.file = write_spool(alloc, &items)?.into_vec();
            Ok(format!(in alloc; "{}", items.len())?)
        }
        _ => Ok(String::from_str(alloc, "nothing")?),
    }
}

/// What a call gives.
pub fn give<R: Wait>(
    rt: &R,
    alloc: Global,
    shared: &Shared<ExecutorMachine>,
    seat: &mut Seat<ExecutorMachine>,
    world: &mut World,
    call: &str,
) -> Result<String, NoMemory>
    requires { seat.old.shared ≡ shared.now }
    ensures { OnOk result (IsSameSeat seat.old seat.new) }
{
    let (word, rest) = call.split_once(' ').unwrap_or((call, ""));
    let runner = u8::try_from(number(rest)).ok().and_then(RunnerNo::new);
    match (word, runner) {
        ("run", Some(runner)) => run(rt, alloc, shared, seat, world, runner),
        ("poll", Some(runner)) => {
            let poll = ExecutorEvent::Poll(runner, world.at);
            event(rt, alloc, shared, seat, world, &poll)
        }
        ("take", _) => event(rt, alloc, shared, seat, world, &ExecutorEvent::BatchTake),
        ("save", _) => event(rt, alloc, shared, seat, world, &ExecutorEvent::Kept),
        ("callback", _) => callback(rt, alloc, shared, seat, world, rest),
        ("beat", _) => beat(alloc, world, rest),
        ("asked", _) => world.asked(alloc, number(rest)),
        ("file", _) => world.line(alloc, number(rest)),
        ("expire", _) => expire(rt, alloc, shared, seat, world),
        ("tend", _) => tend(rt, alloc, shared, seat, world),
        (path, _) => request(rt, alloc, shared, seat, world, path, rest),
    }
}
