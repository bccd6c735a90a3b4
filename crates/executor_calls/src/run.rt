//! A runner's turn: it takes a run, lets its handler run, and stores the lines and the result.
ghost use Rattle.std.specs.Prelude.{◌≡◌, ℕ, List, IfOk, codes};
ghost use Rattle.job_values.specs.declared.limits.TheConstants.{LONGEST_RESULT};
ghost use Rattle.api_messages.specs.Reading.{cut as cut_of};
ghost use Rattle.executor_calls.specs.Gaining.{Gained, GainedBy};
ghost use Rattle.executor_calls.specs.Runs.{input_of, cut_line, finish_code, code_number, LineGave, LinesGave, FinishGave, StoredGave, HandlerGave, busy_with, polled_of, AfterPoll, RunGave};

use crate::handler::{HandlerResult, Handlers, RunInput, RunOutput};
use api_messages::cut;
use executor_node::ExecutorMachine;
use executor_node::act::act;
use job_events::{ExecutorEvent, ExecutorRefusal, ExecutorReply, FinishCode, PolledRun};
use job_values::limits::{FAILURE, LONGEST_LOG_LINE, LONGEST_RESULT, SUCCESS};
use job_values::{LogId, LogLine, NoMemory, ResultText, RunnerNo, Text};
use outside::Clock;
use std::alloc::Global;
use std::sync::Wait;
use turn_lock::{Seat, Shared};

/// What became of a runner's turn.
#[derive(Clone, Copy, PartialEq, Eq)]
pub enum RunDone {
    /// No run is ready.
    Idle,
    /// The run of a log ended, with this code given to the executor.
    Ran { log: LogId, code: i32 },
}

/// A line as it is stored.
fn line_of(alloc: Global, line: &Text) -> Result<LogLine, NoMemory>
    ensures { IfOk result (λ l. l ≡ cut_line line.now) }
{
    let text = Text::copied(alloc, cut(line.as_str(), LONGEST_LOG_LINE))?;
    Ok(LogLine::of(text))
}

/// The text of a result as it is stored.
fn result_text(alloc: Global, text: &str) -> Result<ResultText, NoMemory>
    ensures { IfOk result (λ t. t ≡ cut_of LONGEST_RESULT text.now) }
{
    let text = Text::copied(alloc, cut(text, LONGEST_RESULT))?;
    Ok(ResultText::of(text))
}

/// The code of a handler's result.
fn finish_code(ok: bool) -> FinishCode
    ensures { result ≡ finish_code ok }
{
    if ok {
        FinishCode::Success
    } else {
        FinishCode::Failure
    }
}

/// A run that ended, with the number of its code.
fn ran(log: LogId, code: FinishCode) -> RunDone
    ensures { result ≡ RunDone.Ran log (code_number code) }
{
    match code {
        FinishCode::Success => RunDone::Ran { log, code: SUCCESS },
        FinishCode::Failure => RunDone::Ran { log, code: FAILURE },
    }
}

/// The text of a run whose result was lost.
fn lost_text(alloc: Global) -> Result<ResultText, NoMemory>
    ensures { IfOk result (λ t. t ≡ codes "result lost.") }
{
    let text = Text::copied(alloc, "result lost.")?;
    Ok(ResultText::of(text))
}

/// Stores a line, if the log has room for it.
fn store_line<R: Wait>(
    rt: &R,
    alloc: Global,
    shared: &Shared<ExecutorMachine>,
    seat: &mut Seat<ExecutorMachine>,
    runner: RunnerNo,
    line: &Text,
) -> Result<(), NoMemory>
    requires { seat.old.shared ≡ shared.now }
    ensures { Gained seat.old seat.new (λ es. LineGave runner line.now es result) }
{
    let stored = line_of(alloc, line)?;
    act(rt, shared, seat, &ExecutorEvent::LogLine(runner, stored))?;
    Ok(())
}

/// Stores lines, in their order.
fn store_lines<R: Wait>(
    rt: &R,
    alloc: Global,
    shared: &Shared<ExecutorMachine>,
    seat: &mut Seat<ExecutorMachine>,
    runner: RunnerNo,
    lines: &[Text],
) -> Result<(), NoMemory>
    requires { seat.old.shared ≡ shared.now }
    ensures { Gained seat.old seat.new (λ es. LinesGave runner lines.now es result) }
{
    for line in lines {
        store_line(rt, alloc, shared, seat, runner, line)?;
    }
    Ok(())
}

/// Tells the executor that the run of a runner ended.
fn finish<R: Wait, C: Clock>(
    rt: &R,
    shared: &Shared<ExecutorMachine>,
    seat: &mut Seat<ExecutorMachine>,
    clock: &mut C,
    runner: RunnerNo,
    log: LogId,
    code: FinishCode,
    text: ResultText,
) -> Result<RunDone, NoMemory>
    requires { seat.old.shared ≡ shared.now }
    ensures { GainedBy (C.readings clock.old) (C.readings clock.new) seat.old seat.new (λ times es. FinishGave runner log code text times es result) }
{
    let at = clock.now();
    act(
        rt,
        shared,
        seat,
        &ExecutorEvent::Finish(runner, at, code, text),
    )?;
    Ok(ran(log, code))
}

/// The same with the result of a handler.
fn finish_with<R: Wait, C: Clock>(
    rt: &R,
    alloc: Global,
    shared: &Shared<ExecutorMachine>,
    seat: &mut Seat<ExecutorMachine>,
    clock: &mut C,
    runner: RunnerNo,
    log: LogId,
    given: &HandlerResult,
) -> Result<RunDone, NoMemory>
    requires { seat.old.shared ≡ shared.now }
    ensures { GainedBy (C.readings clock.old) (C.readings clock.new) seat.old seat.new
        (λ times es. FinishGave runner log (finish_code given.now.ok) (cut_of LONGEST_RESULT given.now.msg) times es result) }
{
    let text = result_text(alloc, given.msg.as_str())?;
    finish(
        rt,
        shared,
        seat,
        clock,
        runner,
        log,
        finish_code(given.ok),
        text,
    )
}

/// Ends a run whose result was lost for want of memory.
fn lose<R: Wait, C: Clock>(
    rt: &R,
    alloc: Global,
    shared: &Shared<ExecutorMachine>,
    seat: &mut Seat<ExecutorMachine>,
    clock: &mut C,
    runner: RunnerNo,
    log: LogId,
) -> Result<RunDone, NoMemory>
    requires { seat.old.shared ≡ shared.now }
    ensures { GainedBy (C.readings clock.old) (C.readings clock.new) seat.old seat.new
        (λ times es. FinishGave runner log FinishCode.Failure (codes "result lost.") times es result) }
{
    let text = lost_text(alloc)?;
    finish(
        rt,
        shared,
        seat,
        clock,
        runner,
        log,
        FinishCode::Failure,
        text,
    )
}

/// Stores what a handler gave.
fn store<R: Wait, C: Clock>(
    rt: &R,
    alloc: Global,
    shared: &Shared<ExecutorMachine>,
    seat: &mut Seat<ExecutorMachine>,
    clock: &mut C,
    runner: RunnerNo,
    log: LogId,
    lines: &[Text],
    given: &HandlerResult,
) -> Result<RunDone, NoMemory>
    requires { seat.old.shared ≡ shared.now }
    ensures { GainedBy (C.readings clock.old) (C.readings clock.new) seat.old seat.new
        (λ times es. StoredGave runner log lines.now given.now times es result) }
{
    store_lines(rt, alloc, shared, seat, runner, lines)?;
    finish_with(rt, alloc, shared, seat, clock, runner, log, given)
}

/// Lets the handler of a run do it, and stores what it gave.
fn handle<R: Wait, H: Handlers, C: Clock>(
    rt: &R,
    alloc: Global,
    shared: &Shared<ExecutorMachine>,
    seat: &mut Seat<ExecutorMachine>,
    clock: &mut C,
    runner: RunnerNo,
    handlers: &H,
    run: PolledRun,
) -> Result<RunDone, NoMemory>
    requires { seat.old.shared ≡ shared.now }
    ensures { GainedBy (C.readings clock.old) (C.readings clock.new) seat.old seat.new
        (λ times es. HandlerGave (λ name input lines given. H.gives handlers.now name input lines given) runner run times es result) }
{
    let PolledRun {
        log,
        job,
        handler,
        param,
        index,
        total,
    } = run;
    let input = RunInput {
        job,
        log,
        param,
        index,
        total,
    };
    let mut out = RunOutput::new(alloc);
    let given = handlers.run(&handler, &input, &mut out);
    store(
        rt,
        alloc,
        shared,
        seat,
        clock,
        runner,
        log,
        out.lines(),
        &given,
    )
}

/// What a Poll was answered.
#[derive(Drop)]
pub enum Polled {
    /// A run.
    Given(PolledRun),
    /// An earlier call left the run of this log on the runner.
    Busy(LogId),
    /// No run is ready.
    Nothing,
}

/// What a refused Poll tells.
fn busy_with(refusal: ExecutorRefusal) -> Polled
    ensures { result ≡ busy_with refusal }
{
    match refusal {
        ExecutorRefusal::RunnerBusy(log) => Polled::Busy(log),
        ExecutorRefusal::Held(_)
        | ExecutorRefusal::NotBean
        | ExecutorRefusal::NoHandler
        | ExecutorRefusal::Discarded
        | ExecutorRefusal::HeldFull
        | ExecutorRefusal::Running
        | ExecutorRefusal::Nothing
        | ExecutorRefusal::NotRunning
        | ExecutorRefusal::LinesFull
        | ExecutorRefusal::NoLines
        | ExecutorRefusal::BatchOut
        | ExecutorRefusal::NoBatch => Polled::Nothing,
    }
}

/// What the reply to a Poll tells.
fn polled_of(reply: ExecutorReply) -> Polled
    ensures { result ≡ polled_of reply }
{
    match reply {
        ExecutorReply::Runs(run) => Polled::Given(run),
        ExecutorReply::Refused(refusal) => busy_with(refusal),
        ExecutorReply::Done
        | ExecutorReply::Queued(_)
        | ExecutorReply::Killed(_)
        | ExecutorReply::Item(_, _)
        | ExecutorReply::NoItem(_)
        | ExecutorReply::Expired(_)
        | ExecutorReply::Lines(_)
        | ExecutorReply::Trimmed(_)
        | ExecutorReply::Batch(_)
        | ExecutorReply::Reloaded(_)
        | ExecutorReply::Kept(_) => Polled::Nothing,
    }
}

/// What follows a Poll.
fn after_poll<R: Wait, H: Handlers, C: Clock>(
    rt: &R,
    alloc: Global,
    shared: &Shared<ExecutorMachine>,
    seat: &mut Seat<ExecutorMachine>,
    clock: &mut C,
    runner: RunnerNo,
    handlers: &H,
    polled: Polled,
) -> Result<RunDone, NoMemory>
    requires { seat.old.shared ≡ shared.now }
    ensures { GainedBy (C.readings clock.old) (C.readings clock.new) seat.old seat.new
        (λ times es. AfterPoll (λ name input lines given. H.gives handlers.now name input lines given) runner polled times es result) }
{
    match polled {
        Polled::Given(run) => handle(rt, alloc, shared, seat, clock, runner, handlers, run),
        Polled::Busy(log) => lose(rt, alloc, shared, seat, clock, runner, log),
        Polled::Nothing => Ok(RunDone::Idle),
    }
}

/// Takes a run for a runner, lets its handler do it outside the lock, and stores its lines and its result.
/// A run that an earlier call left on the runner for want of memory ends with the text `result lost.`. It
/// may wait.
pub fn run_once<R: Wait, H: Handlers, C: Clock>(
    rt: &R,
    alloc: Global,
    shared: &Shared<ExecutorMachine>,
    seat: &mut Seat<ExecutorMachine>,
    runner: RunnerNo,
    handlers: &H,
    clock: &mut C,
) -> Result<RunDone, NoMemory>
    requires { seat.old.shared ≡ shared.now }
    ensures { GainedBy (C.readings clock.old) (C.readings clock.new) seat.old seat.new
        (λ times es. RunGave (λ name input lines given. H.gives handlers.now name input lines given) runner times es result) }
{
    let at = clock.now();
    let reply = act(rt, shared, seat, &ExecutorEvent::Poll(runner, at))?;
    after_poll(
        rt,
        alloc,
        shared,
        seat,
        clock,
        runner,
        handlers,
        polled_of(reply),
    )
}
