//! A whole call: the script of a source is played, and the replies and the report go to a sink; or
//! the next times of a schedule are told.
ghost use Rattle.std.specs.Prelude.{◌≡◌, ℕ, ◌≤◌, ◌++◌, List, OnOk, Some, IsSome, IsNone, ◌⊎◌, map, string_bytes};
ghost use Rattle.job_events.specs.declared.cluster.ClusterEvent.{ClusterEvent};
ghost use Rattle.cluster_history.specs.declared.settings.Settings.{Settings};
ghost use Rattle.line_program.specs.Script.{IsTaken};
ghost use Rattle.line_program.specs.Ports.{ports_of};
ghost use Rattle.line_program.specs.Outcome.{RunEnds, Yields, BadAt, LargeAt, code_of};
ghost use Rattle.line_program.specs.declared.status.Status.{Status};
ghost use Rattle.replay_program.specs.Script.{script};
ghost use Rattle.replay_program.specs.Words.{settings_said};
ghost use Rattle.replay_program.specs.Next.{next_said, Wrote, NextEnds, OtherEnds, CallEnds};
ghost use Rattle.replay_program.specs.Outcome.{WordsEnd};

use super::machine::Machine;
use super::next::{Ask, put_answer};
use super::words::{next_of, settings_of};
use cluster_history::Settings;
use job_values::NoMemory;
use line_program::{Status, run_lines};
use outside::{Sink, Source, write_whole};
use std::alloc::Global;

/// Puts bytes behind the buffer.
pub(crate) fn push_bytes(out: &mut Vec<u8>, bytes: &[u8]) -> Result<(), NoMemory>
    ensures { OnOk result (out.new.items ≡ out.old.items ++ bytes.now) }
{
    match out.extend_from_slice(bytes) {
        Ok(()) => Ok(()),
        Err(_) => Err(NoMemory),
    }
}

/// Plays the script of a source under these settings.
fn run<S: Source, O: Sink>(
    alloc: Global,
    settings: Settings,
    source: &mut S,
    sink: &mut O,
) -> Status
    ensures ends { RunEnds (script settings)
        (ports_of (S.left source.old) (O.taken sink.old) (S.faults source.old) (O.faults sink.old))
        (ports_of (S.left source.new) (O.taken sink.new) (S.faults source.new) (O.faults sink.new)) result }
    ensures taken { (events : List ClusterEvent) (input : List ℕ) → S.left source.old ≡ Some input →
        IsTaken (script settings) 0 events input → Yields 0 (code_of result) }
    ensures bad { (events : List ClusterEvent) (input : List ℕ) (column : ℕ) → S.left source.old ≡ Some input →
        BadAt (script settings) events input column → Yields 1 (code_of result) }
    ensures large { (events : List ClusterEvent) (input : List ℕ) → S.left source.old ≡ Some input →
        LargeAt (script settings) events input → Yields 6 (code_of result) }
    ensures read { S.faults source.old ≤ S.faults source.new }
    ensures wrote { O.faults sink.old ≤ O.faults sink.new }
{
    match Machine::new(alloc, settings) {
        Ok(machine) => run_lines(alloc, machine, source, sink),
        Err(_) => Status::NoMemory,
    }
}

/// Says that the words are no command.
fn refuse_words<O: Sink>(sink: &mut O) -> Status
    ensures ends { WordsEnd (O.taken sink.old) (O.taken sink.new) (O.faults sink.old) (O.faults sink.new) result }
    ensures wrote { O.faults sink.old ≤ O.faults sink.new }
{
    match write_whole(sink, b"bad words\n") {
        Ok(()) => Status::BadWords,
        Err(_) => Status::SinkFailed,
    }
}

/// Writes a text, with this status where it is written whole.
fn write_answer<O: Sink>(text: &[u8], good: Status, sink: &mut O) -> Status
    ensures ends { Wrote text.now good (O.taken sink.old) (O.taken sink.new) (O.faults sink.old) (O.faults sink.new) result }
    ensures wrote { O.faults sink.old ≤ O.faults sink.new }
{
    match write_whole(sink, text) {
        Ok(()) => good,
        Err(_) => Status::SinkFailed,
    }
}

/// Tells the next times of a schedule, or its first fault, or that of the zone.
fn tell_times<O: Sink>(alloc: Global, ask: &Ask, sink: &mut O) -> Status
    ensures ends { NextEnds ask.now (O.taken sink.old) (O.taken sink.new) (O.faults sink.old) (O.faults sink.new) result }
    ensures wrote { O.faults sink.old ≤ O.faults sink.new }
{
    let mut out = Vec::new(alloc);
    match put_answer(alloc, &mut out, ask) {
        Ok(good) => write_answer(out.as_slice(), good, sink),
        Err(_) => Status::NoMemory,
    }
}

/// Answers words that are none of `run`.
fn answer_words<O: Sink>(alloc: Global, words: &[String], sink: &mut O) -> Status
    ensures ends { OtherEnds (next_said (map string_bytes words.now)) (O.taken sink.old) (O.taken sink.new) (O.faults sink.old) (O.faults sink.new) result }
    ensures wrote { O.faults sink.old ≤ O.faults sink.new }
{
    match next_of(alloc, words) {
        Ok(Some(ask)) => tell_times(alloc, &ask, sink),
        Ok(None) => refuse_words(sink),
        Err(_) => Status::NoMemory,
    }
}

/// Does what the words say, those after the program's name: `run` plays the script of the source and
/// writes the replies and the report to the sink; `next` writes the next times of a schedule. It always
/// returns, with the exit status: 0; 1 for a line that is none; 2 for words that are no command; 3
/// where the source failed; 4 where the sink failed; 5 for want of memory; 6 for a line or an input
/// past its limit.
pub fn replay_main<S: Source, O: Sink>(
    alloc: Global,
    words: &[String],
    source: &mut S,
    sink: &mut O,
) -> u8
    // The status says how the call ended, what was read and what was written.
    ensures ends { (status : Status) × (result ≡ code_of status) × CallEnds (map string_bytes words.now)
        (ports_of (S.left source.old) (O.taken sink.old) (S.faults source.old) (O.faults sink.old))
        (ports_of (S.left source.new) (O.taken sink.new) (S.faults source.new) (O.faults sink.new)) status }
    // Other words than those of `run` read nothing.
    ensures unread { IsNone (settings_said (map string_bytes words.now)) → source.new ≡ source.old }
    // Words that are no command give 2, unless the sink fails.
    ensures words { IsNone (settings_said (map string_bytes words.now)) → IsNone (next_said (map string_bytes words.now)) → (result ≡ 2) ⊎ (result ≡ 4) }
    // A script within the limits gives 0, a line within the limits that is none 1, a line or an input
    // past its limit 6, unless the source or the sink fails or memory runs out.
    ensures taken { (settings : Settings) (events : List ClusterEvent) (input : List ℕ) → settings_said (map string_bytes words.now) ≡ Some settings →
        S.left source.old ≡ Some input → IsTaken (script settings) 0 events input → Yields 0 result }
    ensures bad { (settings : Settings) (events : List ClusterEvent) (input : List ℕ) (column : ℕ) → settings_said (map string_bytes words.now) ≡ Some settings →
        S.left source.old ≡ Some input → BadAt (script settings) events input column → Yields 1 result }
    ensures large { (settings : Settings) (events : List ClusterEvent) (input : List ℕ) → settings_said (map string_bytes words.now) ≡ Some settings →
        S.left source.old ≡ Some input → LargeAt (script settings) events input → Yields 6 result }
    ensures read { S.faults source.old ≤ S.faults source.new }
    ensures wrote { O.faults sink.old ≤ O.faults sink.new }
{
    match settings_of(words) {
        Some(settings) => run(alloc, settings, source, sink).code(),
        None => answer_words(alloc, words, sink).code(),
    }
}
