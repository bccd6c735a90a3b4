//! What starts works and finishes them.
ghost use Rattle.std.specs.Prelude.{◌≡◌, ◌<◌, ◌≤◌, ◌+◌, ◌^◌, ◌-◌, IfOk, IfErr};
ghost use Rattle.outside.specs.Causes.{Rose};
ghost use Rattle.program_ports.specs.Works.{work_of};

use crate::threads::{RunningThread, join_thread, start_thread};
use crate::work::Work;
use std::alloc::Global;
use std::collections::VecDeque;
use std::marker::Model;
use std::sync::Wait;
use std::thread::Threads;

/// A started work: in a thread, or kept until it is finished.
#[derive(Drop)]
pub enum Spawned<W: Work> {
    Thread(RunningThread<W>),
    Held(W),
}

/// Where works run: each in a thread, or in the caller when it is finished. There `true` in the list refuses
/// a start, and behind the last none is refused.
#[derive(Drop)]
pub enum Place {
    Threads,
    Caller(VecDeque<bool>),
}

/// Starts works of any type. Contracts see how many were started and are not finished, and how often a start
/// was refused.
#[derive(Drop)]
pub struct Spawning<R: Threads + Wait + Drop> {
    rt: R,
    alloc: Global,
    place: Place,
    unfinished: u64,
    faults: u64,
}

impl<R: Threads + Wait + Drop> Model for Spawning<R> {
    ghost use Rattle.program_ports.specs.Works.{SpawningView};

    ghost Value = { SpawningView };

    ghost view = { λ s. record { unfinished = s.unfinished; faults = s.faults } };
}

/// Starts a work at its place. A refused work is given back.
fn start_at<R: Threads + Wait, W: Work + Send + 'static>(
    rt: &R,
    alloc: Global,
    place: &mut Place,
    work: W,
) -> Result<Spawned<W>, W>
where
    W::Done: Send + 'static,
    ensures started { IfOk result (λ r. work_of r ≡ work) }
    ensures refused { IfErr result (λ w. w ≡ work) }
{
    match place {
        Place::Threads => match start_thread(rt, alloc, work) {
            Ok(running) => Ok(Spawned::Thread(running)),
            Err(work) => Err(work),
        },
        Place::Caller(refusals) => {
            if refusals.pop_front().unwrap_or(false) {
                Err(work)
            } else {
                Ok(Spawned::Held(work))
            }
        }
    }
}

impl<R: Threads + Wait + Drop> Spawning<R> {
    /// What starts works at this place. It takes no memory.
    pub fn new(rt: R, alloc: Global, place: Place) -> Spawning<R>
        ensures { result ≡ record { unfinished = 0; faults = 0 } }
    {
        Spawning {
            rt,
            alloc,
            place,
            unfinished: 0,
            faults: 0,
        }
    }

    /// Starts the work. A refused work is given back.
    pub fn start<W: Work + Send + 'static>(&mut self, work: W) -> Result<Spawned<W>, W>
    where
        W::Done: Send + 'static,
        ensures started { IfOk result (λ r. (work_of r ≡ work) × (self.old.unfinished < 2 ^ 64 - 1) × (self.new.unfinished ≡ self.old.unfinished + 1)) }
        ensures refused { IfErr result (λ w. (w ≡ work) × (self.new.unfinished ≡ self.old.unfinished) × Rose self.old.faults self.new.faults) }
        ensures later { self.old.faults ≤ self.new.faults }
    {
        if self.unfinished == u64::MAX {
            self.faults = self.faults.saturating_add(1);
            return Err(work);
        }
        match start_at(&self.rt, self.alloc, &mut self.place, work) {
            Ok(running) => {
                self.unfinished += 1;
                Ok(running)
            }
            Err(work) => {
                self.faults = self.faults.saturating_add(1);
                Err(work)
            }
        }
    }

    /// Waits for the work's end, or runs it.
    pub fn finish<W: Work>(&mut self, running: Spawned<W>) -> W::Done
        requires { 0 < self.old.unfinished }
        ensures gives { W.may_give (work_of running) result }
        ensures lowered { self.new.unfinished + 1 ≡ self.old.unfinished }
        ensures faults { self.new.faults ≡ self.old.faults }
    {
        self.unfinished -= 1;
        match running {
            Spawned::Thread(running) => join_thread(&self.rt, running),
            Spawned::Held(work) => work.run(),
        }
    }
}
