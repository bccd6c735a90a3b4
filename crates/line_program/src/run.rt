//! A whole run: the lines of a source are answered, and the replies and the report go to a sink.
ghost use Rattle.std.specs.Prelude.{◌≡◌, ℕ, ◌≤◌, ◌+◌, ◌++◌, ◌∷◌, List, [], length, IfErr, OnOk, Some};
ghost use Rattle.line_grammar.specs.Writing.{spaced_number};
ghost use Rattle.line_program.specs.Script.{IsTaken};
ghost use Rattle.line_program.specs.Ports.{ports_of};
ghost use Rattle.line_program.specs.Progress.{Start, At, Closed, Fails};
ghost use Rattle.line_program.specs.Outcome.{RunEnds, Yields, BadAt, LargeAt, bad_line, large_line, code_of, status_after};

use super::machine::LineMachine;
use super::status::Status;
use super::stream::{Ended, LineStream, take_all};
use job_values::NoMemory;
use line_grammar::{write_byte, write_number, write_word};
use outside::{Sink, Source, write_whole};
use std::alloc::Global;

/// Puts a space and a number behind the buffer.
fn push_number(out: &mut Vec<u8>, number: u64) -> Result<(), NoMemory>
    ensures { OnOk result (out.new.items ≡ out.old.items ++ spaced_number number) }
{
    write_byte(out, b' ')?;
    write_number(out, number)
}

/// Puts the line that tells a line that is none behind the buffer.
fn push_bad(out: &mut Vec<u8>, line: usize, column: u32) -> Result<(), NoMemory>
    ensures { OnOk result (out.new.items ≡ out.old.items ++ bad_line line column) }
{
    write_word(out, "bad line")?;
    push_number(out, line as u64)?;
    push_number(out, u64::from(column))?;
    write_byte(out, b'\n')
}

/// Puts the line that tells a line past a limit behind the buffer.
fn push_large(out: &mut Vec<u8>, line: usize) -> Result<(), NoMemory>
    ensures { OnOk result (out.new.items ≡ out.old.items ++ large_line line) }
{
    write_word(out, "too large")?;
    push_number(out, line as u64)?;
    write_byte(out, b'\n')
}

/// Writes what is buffered and the report.
fn end_with_report<M: LineMachine, O: Sink>(
    alloc: Global,
    stream: &mut LineStream<M>,
    sink: &mut O,
) -> Result<(), Ended>
    ensures ok { OnOk result ((start : Start M.Settings) (whole : List ℕ) → At M.play start (O.taken sink.old) stream.old whole →
        Closed M.play start (O.taken sink.new) whole (λ settings events. (M.play.meaning settings).report events)) }
    ensures err { IfErr result (Fails M.play (λ settings events. (M.play.meaning settings).report events) (O.taken sink.old) (O.taken sink.new) (O.faults sink.old) (O.faults sink.new) stream.old) }
    ensures wrote { O.faults sink.old ≤ O.faults sink.new }
{
    match stream.machine.report(alloc, stream.lines, &mut stream.out) {
        Ok(()) => {}
        Err(_) => return Err(Ended::Memory),
    }
    match write_whole(sink, stream.out.as_slice()) {
        Ok(()) => Ok(()),
        Err(_) => Err(Ended::Sink),
    }
}

/// Writes what is buffered and the place of a bad line.
fn end_with_bad<M: LineMachine, O: Sink>(
    stream: &mut LineStream<M>,
    column: u32,
    sink: &mut O,
) -> Result<(), Ended>
    ensures ok { OnOk result ((start : Start M.Settings) (whole : List ℕ) → At M.play start (O.taken sink.old) stream.old whole →
        Closed M.play start (O.taken sink.new) whole (λ _ events. bad_line (length events + 1) column)) }
    ensures err { IfErr result (Fails M.play (λ _ events. bad_line (length events + 1) column) (O.taken sink.old) (O.taken sink.new) (O.faults sink.old) (O.faults sink.new) stream.old) }
    ensures wrote { O.faults sink.old ≤ O.faults sink.new }
{
    let line = stream.lines.saturating_add(1);
    match push_bad(&mut stream.out, line, column) {
        Ok(()) => {}
        Err(_) => return Err(Ended::Memory),
    }
    match write_whole(sink, stream.out.as_slice()) {
        Ok(()) => Ok(()),
        Err(_) => Err(Ended::Sink),
    }
}

/// Writes what is buffered and the number of a line past a limit.
fn end_with_large<M: LineMachine, O: Sink>(
    stream: &mut LineStream<M>,
    sink: &mut O,
) -> Result<(), Ended>
    ensures ok { OnOk result ((start : Start M.Settings) (whole : List ℕ) → At M.play start (O.taken sink.old) stream.old whole →
        Closed M.play start (O.taken sink.new) whole (λ _ events. large_line (length events + 1))) }
    ensures err { IfErr result (Fails M.play (λ _ events. large_line (length events + 1)) (O.taken sink.old) (O.taken sink.new) (O.faults sink.old) (O.faults sink.new) stream.old) }
    ensures wrote { O.faults sink.old ≤ O.faults sink.new }
{
    let line = stream.lines.saturating_add(1);
    match push_large(&mut stream.out, line) {
        Ok(()) => {}
        Err(_) => return Err(Ended::Memory),
    }
    match write_whole(sink, stream.out.as_slice()) {
        Ok(()) => Ok(()),
        Err(_) => Err(Ended::Sink),
    }
}

/// The status of a run whose last text was written, or failed to be.
fn status_of(ended: Result<(), Ended>, written: Status) -> Status
    ensures { result ≡ status_after ended written }
{
    match ended {
        Ok(()) => written,
        Err(Ended::Sink) => Status::SinkFailed,
        Err(_) => Status::NoMemory,
    }
}

/// Answers the lines of a source one after another: reads each, acts it, writes its reply, and the
/// report behind the last. It stops at the first line that is none or past a limit, and tells it.
pub fn run_lines<M: LineMachine, S: Source, O: Sink>(
    alloc: Global,
    machine: M,
    source: &mut S,
    sink: &mut O,
) -> Status
    // The status says how the run ended, what was read and what was written.
    ensures ends { (settings : M.Settings) → M.play.stands settings machine [] →
        RunEnds (M.play.meaning settings)
        (ports_of (S.left source.old) (O.taken sink.old) (S.faults source.old) (O.faults sink.old))
        (ports_of (S.left source.new) (O.taken sink.new) (S.faults source.new) (O.faults sink.new)) result }
    // Lines within the limits give Done, one within the limits that is none BadLine, a line or an input
    // past its limit TooLarge, unless the source or the sink fails or memory runs out.
    ensures taken { (settings : M.Settings) (events : List M.Event) (input : List ℕ) → M.play.stands settings machine [] →
        S.left source.old ≡ Some input → IsTaken (M.play.meaning settings) 0 events input → Yields 0 (code_of result) }
    ensures bad { (settings : M.Settings) (events : List M.Event) (input : List ℕ) (column : ℕ) → M.play.stands settings machine [] →
        S.left source.old ≡ Some input → BadAt (M.play.meaning settings) events input column → Yields 1 (code_of result) }
    ensures large { (settings : M.Settings) (events : List M.Event) (input : List ℕ) → M.play.stands settings machine [] →
        S.left source.old ≡ Some input → LargeAt (M.play.meaning settings) events input → Yields 6 (code_of result) }
    ensures read { S.faults source.old ≤ S.faults source.new }
    ensures wrote { O.faults sink.old ≤ O.faults sink.new }
{
    run(alloc, machine, source, sink)
}

fn run<M: LineMachine, S: Source, O: Sink>(
    alloc: Global,
    machine: M,
    source: &mut S,
    sink: &mut O,
) -> Status
    ensures ends { (settings : M.Settings) → M.play.stands settings machine [] →
        RunEnds (M.play.meaning settings)
        (ports_of (S.left source.old) (O.taken sink.old) (S.faults source.old) (O.faults sink.old))
        (ports_of (S.left source.new) (O.taken sink.new) (S.faults source.new) (O.faults sink.new)) result }
    ensures read { S.faults source.old ≤ S.faults source.new }
    ensures wrote { O.faults sink.old ≤ O.faults sink.new }
{
    let mut stream = LineStream {
        machine,
        out: Vec::new(alloc),
        lines: 0,
        size: 0,
    };
    match take_all(alloc, &mut stream, source, sink) {
        Ok(()) => status_of(end_with_report(alloc, &mut stream, sink), Status::Done),
        Err(Ended::Bad(column)) => {
            status_of(end_with_bad(&mut stream, column, sink), Status::BadLine)
        }
        Err(Ended::TooLarge) => status_of(end_with_large(&mut stream, sink), Status::TooLarge),
        Err(Ended::Source) => Status::SourceFailed,
        Err(Ended::Sink) => Status::SinkFailed,
        Err(Ended::Memory) => Status::NoMemory,
    }
}
