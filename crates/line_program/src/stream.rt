//! The lines of a source, one after another, and the buffer of a sink.
ghost use Rattle.std.specs.Prelude.{◌≡◌, ℕ, ◌++◌, ◌∷◌, ◌<◌, ◌≤◌, ◌+◌, [], vec_len, List, Option, IfOk, IfErr, OnOk, OnErr, length};
ghost use Rattle.std.specs.Prelude.{take, true, MatchOption, nat_le, ◌&&◌};
ghost use Rattle.std.specs.Bool.{OnTrue};
ghost use Rattle.std.specs.Io.KnownBytes.{Consumes, IsAtEnd};
ghost use Rattle.outside.specs.Causes.{HasCause};
ghost use Rattle.line_program.specs.Cuts.{content, is_within, is_open, IsLineEnd};
ghost use Rattle.line_program.specs.Progress.{Start};
ghost use Rattle.line_program.specs.Progress.{At, FrontOf, Goes, GoesTo, Explains, ExplainsBoth, Refuses, PlaysAll, PlaysTo};

use super::limits::{LAST_INPUT_BYTES, LAST_LINE_BYTES};
use super::machine::{LineMachine, Unread};
use memchr::memchr;
use outside::{Failed, Sink, Source, write_whole};
use std::alloc::Global;

/// How many bytes of the source are read at once.
const CHUNK: usize = 65_536;

/// How many bytes of replies are written at once.
const FULL: usize = 65_536;

/// Why a run ended before its report.
#[derive(Clone, Copy)]
pub(crate) enum Ended {
    /// A line is none; what begins some line ends before this column.
    Bad(u32),
    /// A line or the input is past its limit.
    TooLarge,
    /// The source failed.
    Source,
    /// The sink failed.
    Sink,
    /// Memory ran out.
    Memory,
}

/// A machine on its way over its lines.
#[derive(Drop)]
pub(crate) struct LineStream<M> {
    pub(crate) machine: M,
    /// Replies that are not written yet.
    pub(crate) out: Vec<u8>,
    /// How many lines were taken.
    pub(crate) lines: usize,
    /// How many bytes they have.
    pub(crate) size: usize,
}

impl<M: LineMachine> LineStream<M> {
    /// Takes a line of which `bytes` stand before its end.
    pub(crate) fn take_line(
        &mut self,
        alloc: Global,
        line: &[u8],
        bytes: usize,
    ) -> Result<(), Ended>
        requires some { 0 < length line.now }
        requires bytes { bytes ≡ length (content line.now) }
        requires end { length line.now ≤ bytes + 1 }
        ensures ok { OnOk result ((base : Start M.Settings) (now : Option (List ℕ)) (whole : List ℕ) → At M.play base now self.old whole → At M.play base now self.new (whole ++ line.now)) }
        ensures size { OnOk result (self.new.size ≡ self.old.size + length line.now) }
        ensures err { IfErr result (Refuses M.play self.old self.new line.now) }
    {
        if !is_small(self.size, bytes, line.len()) {
            return Err(Ended::TooLarge);
        }
        let event = match self.machine.read(alloc, line) {
            Ok(event) => event,
            Err(Unread::Bad(column)) => return Err(Ended::Bad(column)),
            Err(Unread::NoMemory) => return Err(Ended::Memory),
        };
        match self.machine.act(alloc, &event, &mut self.out) {
            Ok(()) => {
                self.lines = self.lines.saturating_add(1);
                self.size += line.len();
                Ok(())
            }
            Err(_) => Err(Ended::Memory),
        }
    }

    /// Writes the buffer.
    pub(crate) fn flush<O: Sink>(&mut self, sink: &mut O) -> Result<(), Failed>
        ensures ok { OnOk result ((base : Start M.Settings) (whole : List ℕ) →
            At M.play base (O.taken sink.old) self.old whole → At M.play base (O.taken sink.new) self.new whole) }
        ensures empty { OnOk result (self.new.out.items ≡ []) }
        ensures err { OnErr result ((base : Start M.Settings) (whole rest : List ℕ) →
            At M.play base (O.taken sink.old) self.old whole → FrontOf M.play base (O.taken sink.new) (whole ++ rest)) }
        ensures size { self.new.size ≡ self.old.size }
        ensures cause { HasCause (O.faults sink.old) (O.faults sink.new) result }
    {
        match write_whole(sink, self.out.as_slice()) {
            Ok(()) => {
                self.out.clear();
                Ok(())
            }
            Err(fault) => Err(fault),
        }
    }

    /// Writes the buffer if it is full.
    fn flush_full<O: Sink>(&mut self, sink: &mut O) -> Result<(), Failed>
        ensures ok { OnOk result ((base : Start M.Settings) (whole : List ℕ) →
            At M.play base (O.taken sink.old) self.old whole → At M.play base (O.taken sink.new) self.new whole) }
        ensures err { OnErr result ((base : Start M.Settings) (whole rest : List ℕ) →
            At M.play base (O.taken sink.old) self.old whole → FrontOf M.play base (O.taken sink.new) (whole ++ rest)) }
        ensures size { self.new.size ≡ self.old.size }
        ensures cause { HasCause (O.faults sink.old) (O.faults sink.new) result }
    {
        if self.out.len() < FULL {
            return Ok(());
        }
        self.flush(sink)
    }

    /// Takes the line that `pending` begins and `end` ends.
    fn end_line<O: Sink>(
        &mut self,
        alloc: Global,
        pending: &mut Vec<u8>,
        end: &[u8],
        sink: &mut O,
    ) -> Result<(), Ended>
        requires one { is_open pending.old.items ≡ true }
        requires end { IsLineEnd end.now }
        ensures ok { OnOk result (Goes M.play (O.taken sink.old) (O.taken sink.new) self.old self.new pending.old.items [] end.now) }
        ensures empty { OnOk result (pending.new.items ≡ []) }
        ensures none_left { OnOk result (vec_len pending.new ≡ 0) }
        ensures size { OnOk result (self.new.size ≡ self.old.size + vec_len pending.old + length end.now) }
        ensures err { IfErr result (GoesTo M.play (O.taken sink.old) (O.taken sink.new) self.old self.new pending.old.items end.now) }
        ensures cause { IfErr result (Explains (O.faults sink.old) (O.faults sink.new)) }
        ensures later { O.faults sink.old ≤ O.faults sink.new }
    {
        match pending.extend_from_slice(end) {
            Ok(()) => {}
            Err(_) => return Err(Ended::Memory),
        }
        let bytes = pending.len() - 1;
        match self.take_line(alloc, pending.as_slice(), bytes) {
            Ok(()) => {}
            Err(ended) => return Err(ended),
        }
        pending.clear();
        match self.flush_full(sink) {
            Ok(()) => Ok(()),
            Err(_) => Err(Ended::Sink),
        }
    }
}

/// Takes the lines that end in a piece of the input. What is left of it is pending then.
pub(crate) fn feed<M: LineMachine, O: Sink>(
    alloc: Global,
    stream: &mut LineStream<M>,
    pending: &mut Vec<u8>,
    piece: &[u8],
    sink: &mut O,
) -> Result<(), Ended>
    requires { is_open pending.old.items ≡ true }
    ensures ok { OnOk result (Goes M.play (O.taken sink.old) (O.taken sink.new) stream.old stream.new pending.old.items pending.new.items piece.now) }
    ensures one { OnOk result (is_open pending.new.items ≡ true) }
    ensures size { OnOk result (stream.new.size + vec_len pending.new ≡ stream.old.size + vec_len pending.old + length piece.now) }
    ensures err { IfErr result (GoesTo M.play (O.taken sink.old) (O.taken sink.new) stream.old stream.new pending.old.items piece.now) }
    ensures cause { IfErr result (Explains (O.faults sink.old) (O.faults sink.new)) }
    ensures later { O.faults sink.old ≤ O.faults sink.new }
{
    let mut rest = piece;
    while let Some(at) = line_end(rest) {
        let (line, more) = rest.split_at(at + 1);
        match stream.end_line(alloc, pending, line, sink) {
            Ok(()) => {}
            Err(ended) => return Err(ended),
        }
        rest = more;
    }
    match pending.extend_from_slice(rest) {
        Ok(()) => Ok(()),
        Err(_) => Err(Ended::Memory),
    }
}

/// Takes the lines that end in a piece of the input, and tries the limits on the next.
fn feed_within<M: LineMachine, O: Sink>(
    alloc: Global,
    stream: &mut LineStream<M>,
    pending: &mut Vec<u8>,
    piece: &[u8],
    sink: &mut O,
) -> Result<(), Ended>
    requires { is_open pending.old.items ≡ true }
    ensures ok { OnOk result (Goes M.play (O.taken sink.old) (O.taken sink.new) stream.old stream.new pending.old.items pending.new.items piece.now) }
    ensures one { OnOk result (is_open pending.new.items ≡ true) }
    ensures size { OnOk result (stream.new.size + vec_len pending.new ≡ stream.old.size + vec_len pending.old + length piece.now) }
    ensures within { OnOk result (stream.new.size + vec_len pending.new ≤ LAST_INPUT_BYTES) }
    ensures err { IfErr result (GoesTo M.play (O.taken sink.old) (O.taken sink.new) stream.old stream.new pending.old.items piece.now) }
    ensures cause { IfErr result (Explains (O.faults sink.old) (O.faults sink.new)) }
    ensures later { O.faults sink.old ≤ O.faults sink.new }
{
    match feed(alloc, stream, pending, piece, sink) {
        Ok(()) => {}
        Err(ended) => return Err(ended),
    }
    let part = pending.as_slice();
    if is_small(stream.size, part.len(), part.len()) {
        Ok(())
    } else {
        Err(Ended::TooLarge)
    }
}

/// Takes all whole lines of a source. What stands behind the last end of a line is pending then.
fn read_all<M: LineMachine, S: Source, O: Sink>(
    alloc: Global,
    stream: &mut LineStream<M>,
    pending: &mut Vec<u8>,
    source: &mut S,
    sink: &mut O,
) -> Result<(), Ended>
    requires one { is_open pending.old.items ≡ true }
    requires within { stream.old.size + vec_len pending.old ≤ LAST_INPUT_BYTES }
    ensures ok { OnOk result ((bytes : List ℕ) × Consumes (S.left source.old) (S.left source.new) bytes × IsAtEnd (S.left source.new)
        × Goes M.play (O.taken sink.old) (O.taken sink.new) stream.old stream.new pending.old.items pending.new.items bytes) }
    ensures one { OnOk result (is_open pending.new.items ≡ true) }
    ensures err { IfErr result (λ e. (bytes : List ℕ) × Consumes (S.left source.old) (S.left source.new) bytes
        × GoesTo M.play (O.taken sink.old) (O.taken sink.new) stream.old stream.new pending.old.items bytes e) }
    ensures cause { IfErr result (ExplainsBoth (S.faults source.old) (S.faults source.new) (O.faults sink.old) (O.faults sink.new)) }
    ensures read { S.faults source.old ≤ S.faults source.new }
    ensures wrote { O.faults sink.old ≤ O.faults sink.new }
{
    let mut chunk = [0u8; CHUNK];
    loop {
        let count = match source.read(&mut chunk) {
            Ok(count) => count,
            Err(_) => return Err(Ended::Source),
        };
        if count == 0 {
            return Ok(());
        }
        match feed_within(alloc, stream, pending, &chunk[..count], sink) {
            Ok(()) => {}
            Err(ended) => return Err(ended),
        }
    }
}

/// Takes what stands behind the last end of a line as the last line.
fn take_tail<M: LineMachine>(
    alloc: Global,
    stream: &mut LineStream<M>,
    pending: &[u8],
) -> Result<(), Ended>
    requires { is_open pending.now ≡ true }
    ensures ok { OnOk result ((base : Start M.Settings) (now : Option (List ℕ)) (whole : List ℕ) →
        At M.play base now stream.old whole → At M.play base now stream.new (whole ++ pending.now)) }
    ensures some { OnErr result (0 < length pending.now) }
    ensures err { IfErr result (Refuses M.play stream.old stream.new pending.now) }
{
    if pending.is_empty() {
        return Ok(());
    }
    stream.take_line(alloc, pending, pending.len())
}

/// Takes all lines of a source.
pub(crate) fn take_all<M: LineMachine, S: Source, O: Sink>(
    alloc: Global,
    stream: &mut LineStream<M>,
    source: &mut S,
    sink: &mut O,
) -> Result<(), Ended>
    requires { stream.old.size ≡ 0 }
    ensures ok { OnOk result (PlaysAll M.play (S.left source.old) (S.left source.new) (O.taken sink.old) (O.taken sink.new) stream.old stream.new) }
    ensures err { IfErr result (PlaysTo M.play (S.left source.old) (O.taken sink.old) (O.taken sink.new) stream.old stream.new) }
    ensures cause { IfErr result (ExplainsBoth (S.faults source.old) (S.faults source.new) (O.faults sink.old) (O.faults sink.new)) }
    ensures read { S.faults source.old ≤ S.faults source.new }
    ensures wrote { O.faults sink.old ≤ O.faults sink.new }
{
    let mut pending = Vec::new(alloc);
    match read_all(alloc, stream, &mut pending, source, sink) {
        Ok(()) => {}
        Err(ended) => return Err(ended),
    }
    match take_tail(alloc, stream, pending.as_slice()) {
        Ok(()) => Ok(()),
        Err(ended) => Err(ended),
    }
}

/// Whether a line of which `bytes` stand before its end and which is `line` bytes long is within the
/// limits behind `before` bytes.
fn is_small(before: usize, bytes: usize, line: usize) -> bool
    ensures value { result ≡ (nat_le bytes LAST_LINE_BYTES && nat_le (before + line) LAST_INPUT_BYTES) }
    ensures short { OnTrue result (bytes ≤ LAST_LINE_BYTES) }
    ensures within { OnTrue result (before + line ≤ LAST_INPUT_BYTES) }
{
    bytes <= LAST_LINE_BYTES && line <= LAST_INPUT_BYTES && before <= LAST_INPUT_BYTES - line
}

/// The place of the first end of a line.
fn line_end(bytes: &[u8]) -> Option<usize>
    ensures { MatchOption result (is_open bytes.now ≡ true) (λ at. (at < length bytes.now) × IsLineEnd (take (at + 1) bytes.now)) }
{
    memchr(b'\n', bytes)
}
