//! A work in a thread of its own.
ghost use Rattle.std.specs.Prelude.{◌≡◌, IfOk, IfErr};
ghost use Rattle.program_ports.specs.Works.{EndsFrom};

use crate::work::Work;
use std::alloc::Global;
use std::snapshot::Snapshot;
use std::sync::atomic::{AtomicBool, Ordering};
use std::sync::{Arc, Wait};
use std::thread::{self, Promise, PromisedHandle, Threads};

/// What the closure of a thread gives: what its work gave, or the work itself where no thread was made.
#[derive(Drop)]
pub enum Ended<W, D> {
    Gave(D),
    Back(W),
}

/// The work of a thread.
#[derive(Drop)]
pub struct OfWork<W>(pub Snapshot<W>);

impl<W: Work> Promise<Ended<W, W::Done>> for OfWork<W> {
    ghost kept_by = { λ p r. EndsFrom W.may_give p.0.value r };
}

/// A work that runs in a thread of its own.
#[derive(Drop)]
pub struct RunningThread<W: Work> {
    pub thread: PromisedHandle<Ended<W, W::Done>, OfWork<W>>,
}

fn run_or_hand_back<W: Work>(work: W, is_refused: bool) -> Ended<W, W::Done>
    ensures { EndsFrom W.may_give work result }
{
    if is_refused {
        Ended::Back(work)
    } else {
        Ended::Gave(work.run())
    }
}

/// Starts a work in a thread. A refused work is given back.
pub(crate) fn start_thread<R: Threads + Wait, W: Work + Send + 'static>(
    rt: &R,
    alloc: Global,
    work: W,
) -> Result<RunningThread<W>, W>
where
    W::Done: Send + 'static,
    ensures started { IfOk result (λ r. r.thread.promise.0.value ≡ work) }
    ensures refused { IfErr result (λ w. w ≡ work) }
{
    let Ok(refused) = Arc::new(alloc, AtomicBool::new(false)) else {
        return Err(work);
    };
    let Ok(theirs) = Arc::try_clone(&refused) else {
        return Err(work);
    };
    let promise = OfWork(Snapshot::of(&work));
    let begun = thread::spawn_with(rt, promise, move || {
        run_or_hand_back(work, theirs.load(Ordering::SeqCst))
    });
    match begun {
        Ok(thread) => Ok(RunningThread { thread }),
        // The closure is called here, with the flag up, so that it hands the work back.
        Err(error) => {
            refused.store(true, Ordering::SeqCst);
            match (error.value)() {
                Ended::Back(work) => Err(work),
                Ended::Gave(_) => {
                    for _ in rt.forever() {}
                    unreachable!()
                }
            }
        }
    }
}

/// Waits for the thread's end.
pub(crate) fn join_thread<R: Threads, W: Work>(rt: &R, running: RunningThread<W>) -> W::Done
    ensures { W.may_give running.thread.promise.0.value result }
{
    let RunningThread { thread } = running;
    match thread.join(rt) {
        Ended::Gave(done) => done,
        Ended::Back(work) => work.run(),
    }
}
