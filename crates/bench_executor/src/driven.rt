//! An executor that is driven through the events of one run after another.
ghost use Rattle.std.specs.Prelude.{◌≡◌};

use crate::runs::{Common, Order, job_at, log_at, names, text};
use executor_node::{ExecutorMachine, share_executor};
use job_events::{ExecutorEvent, ExecutorReply, FinishCode};
use job_values::{LineNo, LogId, Moment, NoMemory, RunnerNo, Seq};
use std::alloc::Global;
use std::marker::Model;
use std::sync::Wait;
use turn_lock::{Seat, Shared};

/// An executor behind its lock, the order of its log ids, and how many events it took.
#[derive(Drop)]
pub struct Driven {
    alloc: Global,
    shared: Shared<ExecutorMachine>,
    seat: Seat<ExecutorMachine>,
    setting: Setting,
    order: Order,
    asked: u32,
    taken: u64,
}

impl Model for Driven {
    ghost use Rattle.std.specs.Prelude.{◌≡◌, ℕ};

    ghost Value = { ℕ };

    ghost view = { λ d. d.taken };

    ghost invariant = { λ d. d.seat.shared ≡ d.shared };
}

/// What all events have in common.
#[derive(Clone, Copy)]
pub struct Setting {
    at: Moment,
    early: Moment,
    runner: RunnerNo,
    first: LineNo,
    common: Common,
}

impl Setting {
    /// The moment of all events, an earlier one than those of all logs, the first runner and the first line.
    pub fn new() -> Option<Setting> {
        Some(Setting {
            at: Moment::new(100_000)?,
            early: Moment::new(1_000)?,
            runner: RunnerNo::new(0)?,
            first: LineNo::new(1)?,
            common: Common::new()?,
        })
    }
}

/// Whether a reply is no refusal.
fn is_accepted(reply: &ExecutorReply) -> bool {
    match reply {
        ExecutorReply::Refused(_) => false,
        _ => true,
    }
}

/// Acts an event; whether it was accepted.
fn accepts<R: Wait>(
    rt: &R,
    shared: &Shared<ExecutorMachine>,
    seat: &mut Seat<ExecutorMachine>,
    event: &ExecutorEvent,
) -> Result<bool, NoMemory>
    requires { seat.old.shared ≡ shared.now }
    ensures { seat.new.shared ≡ shared.now }
{
    let reply = shared.act(rt, seat, event)?;
    Ok(is_accepted(&reply))
}

impl Driven {
    /// A new executor with one handler.
    pub fn new(alloc: Global, setting: Setting, order: Order) -> Result<Driven, NoMemory> {
        let (shared, seat) = share_executor(alloc, names(alloc)?, Seq::new(alloc))?;
        Ok(Driven {
            alloc,
            shared,
            seat,
            setting,
            order,
            asked: 0,
            taken: 0,
        })
    }

    /// How many events were accepted.
    pub fn taken(&self) -> u64 {
        self.taken
    }

    /// Acts an event.
    fn step<R: Wait>(&mut self, rt: &R, event: &ExecutorEvent) -> Result<(), NoMemory> {
        if accepts(rt, &self.shared, &mut self.seat, event)? {
            self.taken = self.taken.saturating_add(1);
        }
        Ok(())
    }

    /// Asks for the next run.
    pub fn ask<R: Wait>(&mut self, rt: &R) -> Result<(), NoMemory> {
        let (Some(job), Some(log)) = (job_at(self.asked), log_at(self.order, self.asked)) else {
            return Ok(());
        };
        let run = self.setting.common.run(self.alloc, job, log)?;
        self.step(rt, &ExecutorEvent::Run(run, self.setting.at))?;
        self.asked = self.asked.saturating_add(1);
        Ok(())
    }

    /// Reads the lines of a log.
    fn read<R: Wait>(&mut self, rt: &R, log: LogId) -> Result<(), NoMemory> {
        self.step(rt, &ExecutorEvent::ReadLines(log, self.setting.first))
    }

    /// Reads the lines of the first log.
    fn read_first<R: Wait>(&mut self, rt: &R) -> Result<(), NoMemory> {
        match log_at(self.order, 0) {
            None => Ok(()),
            Some(log) => self.read(rt, log),
        }
    }

    /// Trims where nothing is old enough.
    fn trim<R: Wait>(&mut self, rt: &R) -> Result<(), NoMemory> {
        self.step(rt, &ExecutorEvent::Trim(self.setting.early))
    }

    /// Gives the runner a run.
    fn poll<R: Wait>(&mut self, rt: &R) -> Result<(), NoMemory> {
        self.step(
            rt,
            &ExecutorEvent::Poll(self.setting.runner, self.setting.at),
        )
    }

    /// The runner's run is done.
    fn finish<R: Wait>(&mut self, rt: &R) -> Result<(), NoMemory> {
        let done = text(self.alloc, "done")?;
        self.step(
            rt,
            &ExecutorEvent::Finish(
                self.setting.runner,
                self.setting.at,
                FinishCode::Success,
                done,
            ),
        )
    }

    /// Takes the items as a batch, which is acknowledged.
    fn deliver<R: Wait>(&mut self, rt: &R) -> Result<(), NoMemory> {
        self.step(rt, &ExecutorEvent::BatchTake)?;
        self.step(rt, &ExecutorEvent::BatchAck)
    }

    /// Seven events: a run is asked for, lines are read, a trim drops nothing, and the run that was accepted
    /// first is given, finished and delivered.
    pub fn round<R: Wait>(&mut self, rt: &R) -> Result<(), NoMemory> {
        self.ask(rt)?;
        self.read_first(rt)?;
        self.trim(rt)?;
        self.poll(rt)?;
        self.finish(rt)?;
        self.deliver(rt)
    }
}
